//! The rivals of a problem's wanted paths, as the source of a search.
ghost use Rattle.std.specs.Prelude.{◌≡◌, ◌<◌, ◌++◌, ◌∷◌, [], length, slice_index_or, IfOk, IsTrue, None, OnErr, OnOk, ◌↔◌};
ghost use Rattle.design_problem.specs.Rows.{IsRow, LeadsEach, form_of_row, forms_of_rows};
ghost use Rattle.design_problem.specs.Forms.{AreMet};
ghost use Rattle.rival_separation.specs.Askers.{AreCheapestRivals, IsAskerFor};
ghost use Rattle.form_search.specs.Sources.{Grows, IsCostPoint};
ghost use Rattle.cost_branching.specs.Pools.{ArePoolRows};
ghost use Rattle.cost_branching.specs.Rivals.{BeginWith, IsTrueRowForm};
ghost use Rattle.cost_branching.specs.Asking.{AreAllRequestsAsked, IsRequestAsked};
ghost use Rattle.area_graph.specs.declared.Point.{Point};

use area_graph::Point;
use cost_base::{Listed, OutOfMemory};
use design_problem::{Problem, Row, form_of, keeps_problem_on_graph};
use form_search::{Asked, FormPool, FormSource};
use rival_separation::Asker;
use std::alloc::Global;
use std::marker::{Brand, Model, PhantomData};

/// The problem of a search, and the rows with which it begins, for proofs alone: each call of a search picks its own.
pub trait Begun {
    ghost use Rattle.std.specs.Prelude.{List};
    ghost use Rattle.design_problem.specs.declared.form.Row.{Row};
    ghost use Rattle.design_problem.specs.Problems.{DesignProblem};

    ghost problem: { DesignProblem };

    ghost rows: { List Row };
}

impl Begun for Brand {
    ghost use Rattle.std.specs.Prelude.{[]};
    ghost use Rattle.cost_branching.specs.Rivals.{no_problem};

    ghost problem = { no_problem };

    ghost rows = { [] };
}

/// The source whose accepted points are those at which each wanted path of a problem leads by the scale, and whose true
/// forms are those of the problem's rows. Contracts see the problem and the rows that are known.
///
/// It keeps what asks for rivals, and the rows of the pool's forms, in the same order: those with which the search
/// began, and behind them those that came since.
#[derive(Drop)]
pub struct Rivals<'a, B: Begun> {
    problem: &'a Problem,
    asker: Asker,
    rows: Vec<Row>,
    begun: PhantomData<B>,
}

impl<'a, B: Begun> Model for Rivals<'a, B> {
    ghost use Rattle.std.specs.Prelude.{◌≡◌};
    ghost use Rattle.rival_separation.specs.Askers.{IsAskerFor};
    ghost use Rattle.cost_branching.specs.Rivals.{BeginWith, KnownRows};

    ghost Value = { KnownRows };

    ghost view = { λ s. record { problem = s.problem.now; rows = s.rows.items } };

    ghost invariant = { λ s. record {
      problem : s.problem.now ≡ B.problem;
      asker : IsAskerFor s.problem.now.graph s.problem.now.requests s.asker;
      begun : BeginWith B.rows s.rows.items;
    } };
}

/// How many requests a problem has.
pub fn request_count(problem: &Problem) -> u32
    ensures { result ≡ length problem.now.requests }
{
    problem.requests.as_slice().len() as u32
}

/// How many variables a problem has.
pub fn variable_count(problem: &Problem) -> u32
    ensures { result ≡ length problem.now.low }
{
    problem.low.as_slice().len() as u32
}

/// The row of a request and a rival's edges.
///
/// # Errors
///
/// `OutOfMemory`.
pub fn row_of(alloc: Global, request: u32, edges: &[u32]) -> Result<Row, OutOfMemory>
    ensures request { IfOk result (λ row. row.request ≡ request) }
    ensures edges { IfOk result (λ row. row.rival ≡ edges.now) }
{
    let rival = Listed::from_slice(alloc, edges)?;
    Ok(Row { request, rival })
}

/// The cheapest rival of each request, None where its path leads at the point by the scale.
fn cheapest_rivals(
    alloc: Global,
    problem: &Problem,
    asker: &mut Asker,
    point: &Point,
) -> Result<Vec<Option<Listed<u32>>>, OutOfMemory>
    requires asker { IsAskerFor problem.now.graph problem.now.requests asker.old }
    requires point { IsCostPoint (length problem.now.low) point.now }
    ensures asker { IsAskerFor problem.now.graph problem.now.requests asker.new }
    ensures rivals { IfOk result (λ rivals. AreCheapestRivals problem.now.graph point.now
        problem.now.requests rivals.items) }
{
    keeps_problem_on_graph(problem);
    asker.cheapest_rivals(alloc, &problem.graph, problem.requests.as_slice(), point)
}

/// Whether each wanted path leads at the point by the scale.
fn all_lead(problem: &Problem, asker: &mut Asker, point: &Point) -> bool
    requires asker { IsAskerFor problem.now.graph problem.now.requests asker.old }
    requires point { IsCostPoint (length problem.now.low) point.now }
    ensures asker { IsAskerFor problem.now.graph problem.now.requests asker.new }
    ensures leads { IsTrue result ↔ LeadsEach problem.now point.now }
{
    keeps_problem_on_graph(problem);
    asker.each_leads(&problem.graph, problem.requests.as_slice(), point)
}

/// What is told of the request of that number: the edges of its cheapest rival, or None.
fn told_of(rivals: &[Option<Listed<u32>>], request: u32) -> &Option<Listed<u32>>
    requires { request < length rivals.now }
    ensures { result.now ≡ slice_index_or rivals.now request None }
{
    &rivals[request as usize]
}

/// Puts a row at the end, and its form at the end of the pool. Where memory is wanting both are as before.
fn push_row(
    problem: &Problem,
    row: Row,
    rows: &mut Vec<Row>,
    pool: &mut FormPool,
) -> Result<(), OutOfMemory>
    requires { IsRow problem.now row }
    ensures row { OnOk result (rows.new.items ≡ rows.old.items ++ row ∷ []) }
    ensures form { OnOk result (pool.new ≡ pool.old ++ form_of_row problem.now row ∷ []) }
    ensures same_rows { OnErr result (rows.new.items ≡ rows.old.items) }
    ensures same_forms { OnErr result (pool.new ≡ pool.old) }
{
    if rows.reserve(1).is_err() {
        return Err(OutOfMemory);
    }
    let form = form_of(pool.alloc(), problem, &row)?;
    pool.push(form)?;
    rows.push_reserved(row);
    Ok(())
}

/// Makes the cheapest rival of one request a row, where it has one that costs less than its path and the scale.
fn ask_one(
    problem: &Problem,
    rivals: &[Option<Listed<u32>>],
    request: u32,
    rows: &mut Vec<Row>,
    pool: &mut FormPool,
) -> Result<bool, OutOfMemory>
    requires request { request < length problem.now.requests }
    requires known { (point : Point) × AreCheapestRivals problem.now.graph point
        problem.now.requests rivals.now }
    ensures one { IfOk result (λ asked. (point : Point) → AreCheapestRivals problem.now.graph point
        problem.now.requests rivals.now → IsRequestAsked point request
        (record { problem = problem.now; rows = rows.old.items }) pool.old
        (record { problem = problem.now; rows = rows.new.items }) pool.new asked) }
    ensures same_rows { OnErr result (rows.new.items ≡ rows.old.items) }
    ensures same_forms { OnErr result (pool.new ≡ pool.old) }
{
    keeps_problem_on_graph(problem);
    match told_of(rivals, request) {
        Some(edges) => {
            let row = row_of(pool.alloc(), request, edges.as_slice())?;
            push_row(problem, row, rows, pool)?;
            Ok(true)
        }
        None => Ok(false),
    }
}

/// Looks for the cheapest rival of each request, and makes those that cost less than path and scale rows, in the
/// requests' order.
fn ask_each(
    problem: &Problem,
    asker: &mut Asker,
    point: &Point,
    rows: &mut Vec<Row>,
    pool: &mut FormPool,
) -> Result<Asked, OutOfMemory>
    // The asker is one for the problem's requests, and the rows are the problem's, none twice.
    requires asker { IsAskerFor problem.now.graph problem.now.requests asker.old }
    requires rows { ArePoolRows problem.now rows.old.items }

    // The point is one of costs, and no form of the rows is negative there.
    requires point { IsCostPoint (length problem.now.low) point.now }
    requires met { AreMet (forms_of_rows problem.now rows.old.items) point.now }

    // All requests were asked, and the pool has got the forms of the rows that came.
    ensures asker { IsAskerFor problem.now.graph problem.now.requests asker.new }
    ensures asked { IfOk result
        (AreAllRequestsAsked point.now (record { problem = problem.now; rows = rows.old.items })
        pool.old (record { problem = problem.now; rows = rows.new.items }) pool.new) }

    // Even where memory is wanting, the rows begin as before, and only true forms came.
    ensures more { BeginWith rows.old.items rows.new.items }
    ensures grows { Grows (IsTrueRowForm problem.now) pool.old pool.new }
{
    let rivals = cheapest_rivals(pool.alloc(), problem, asker, point)?;
    let told = rivals.as_slice();
    let count = request_count(problem);
    let mut asked = Asked::Nothing;
    for request in 0..count {
        if ask_one(problem, told, request, rows, pool)? {
            asked = Asked::Added;
        }
    }
    Ok(asked)
}

impl<'a, B: Begun> Rivals<'a, B> {
    /// The rivals of a problem's paths, where a search begins with these rows.
    pub fn new(problem: &'a Problem, asker: Asker, rows: Vec<Row>) -> Rivals<'a, B>
        requires problem { problem.now ≡ B.problem }
        requires asker { IsAskerFor problem.now.graph problem.now.requests asker }
        requires begun { rows.items ≡ B.rows }
        ensures { result ≡ record { problem = problem.now; rows = rows.items } }
    {
        Rivals {
            problem,
            asker,
            rows,
            begun: PhantomData,
        }
    }

    /// The rows that are known. Those with which the search began come first.
    pub fn into_rows(self) -> Vec<Row>
        ensures rows { result.items ≡ self.entry.rows }
        ensures begun { BeginWith B.rows result.items }
        ensures problem { self.entry.problem ≡ B.problem }
    {
        let Rivals {
            problem: _,
            asker: _,
            rows,
            begun: _,
        } = self;
        rows
    }

    /// The problem.
    pub fn problem(&self) -> &Problem
        ensures { result.now ≡ self.now.problem }
    {
        self.problem
    }

    /// The rows that are known, in order.
    pub fn rows(&self) -> &[Row]
        ensures { result.now ≡ self.now.rows }
    {
        self.rows.as_slice()
    }

    /// Whether each wanted path leads at the point by the scale. It takes no memory.
    pub fn each_leads(&mut self, point: &Point) -> bool
        requires { IsCostPoint (length self.old.problem.low) point.now }
        ensures same { self.new ≡ self.old }
        ensures answer { IsTrue result ↔ LeadsEach self.old.problem point.now }
    {
        let problem = self.problem;
        all_lead(problem, &mut self.asker, point)
    }

    /// Asks each request in order for its cheapest rival. Each that costs less than its path and the scale becomes a
    /// row, and its form comes at the end of the pool, which may hold other forms besides those of the rows.
    ///
    /// # Errors
    ///
    /// `OutOfMemory`. Then too only true forms came into the pool.
    pub fn ask_all(&mut self, point: &Point, pool: &mut FormPool) -> Result<Asked, OutOfMemory>
        // The rows are the problem's, none twice, and none of their forms is negative at the point.
        requires rows { ArePoolRows self.old.problem self.old.rows }
        requires point { IsCostPoint (length self.old.problem.low) point.now }
        requires met { AreMet (forms_of_rows self.old.problem self.old.rows) point.now }

        // All requests were asked about the same problem, and only true forms came to the pool.
        ensures asked { IfOk result (AreAllRequestsAsked point.now self.old pool.old self.new
            pool.new) }
        ensures problem { self.new.problem ≡ self.old.problem }
        ensures grows { Grows (IsTrueRowForm self.old.problem) pool.old pool.new }
    {
        let problem = self.problem;
        ask_each(problem, &mut self.asker, point, &mut self.rows, pool)
    }
}

impl<'a, B: Begun> FormSource for Rivals<'a, B> {
    ghost use Rattle.std.specs.Prelude.{length};
    ghost use Rattle.design_problem.specs.Rows.{LeadsEach};
    ghost use Rattle.cost_branching.specs.Pools.{IsRowPool};
    ghost use Rattle.cost_branching.specs.PossibleForms.{possible_forms_of_problem};
    ghost use Rattle.cost_branching.specs.Rivals.{IsTrueRowForm};
    ghost use Rattle.cost_branching.specs.SourceLaws.{rival_scale_is_free, rival_forms_hold, rival_forms_listed};

    ghost count = { λ s. length s.problem.low };

    ghost accepted = { λ s. LeadsEach s.problem };

    ghost true_form = { λ s. IsTrueRowForm s.problem };

    ghost in_step = { λ s forms. IsRowPool s.problem (record { rows = s.rows; forms = forms }) };

    ghost possible_forms = { λ s. possible_forms_of_problem s.problem };

    fn variables(&self) -> u32 {
        variable_count(self.problem)
    }

    fn ask(&mut self, point: &Point, pool: &mut FormPool) -> Result<Asked, OutOfMemory> {
        self.ask_all(point, pool)
    }

    fn accepts(&mut self, point: &Point) -> bool {
        self.each_leads(point)
    }

    ghost true_forms_hold = { λ s. rival_forms_hold s.problem };

    ghost true_forms_listed = { λ s. rival_forms_listed s.problem };

    ghost scale_is_free = { λ s. rival_scale_is_free s.problem };
}
