//! The outsiders and the ties of a problem's sets, as the source of a search.
ghost use Rattle.std.specs.Prelude.{◌≡◌, ◌<◌, ◌++◌, ◌∷◌, [], ◌↔◌, length, slice_index, All, IfOk, IsTrue, OnErr, OnOk};
ghost use Rattle.area_graph.specs.declared.Point.{Point};
ghost use Rattle.design_problem.specs.Forms.{AreMet};
ghost use Rattle.form_search.specs.Sources.{Grows, IsCostPoint};
ghost use Rattle.spread_sets.specs.declared.spread.SetRow.TheVariants.{Same};
ghost use Rattle.spread_sets.specs.Spreads.{AreTied, SharesEach, name_of_set, form_of_set_row, forms_of_set_rows};
ghost use Rattle.design_problem.specs.Problems.{IsProblemOnGraph};
ghost use Rattle.spread_sets.specs.MemberSets.{AreMemberSets, HasTree, sets_in};
ghost use Rattle.spread_sets.specs.Sources.{IsOutsiderTooCheap, IsPoolOfSets, IsTrueOfSets, both_ways, set_at, tie_rows, ties_in};
ghost use Rattle.spread_sets.specs.Asking.{AreAllSetsAsked, IsPairIn, IsSetAsked, OneSetRow};
ghost use Rattle.spread_sets.specs.SetAskers.{AreOutsidersIfAny, IsOutsiderIfAny};

use crate::member_sets::{MemberSet, first_of};
use crate::row_forms::form_of_tie;
use crate::set_asker::SetAsker;
use crate::spread::SetRow;
use area_graph::Point;
use cost_base::{Listed, OutOfMemory};
use cost_branching::{row_of, variable_count};
use design_problem::{Form, Problem, form_of, keeps_problem_on_graph};
use form_search::{Asked, FormPool, FormSource};
use std::alloc::Global;
use std::marker::{Brand, Model, PhantomData};

/// The problem of a search and its sets, for proofs alone: each call of a search picks its own.
pub(crate) trait Begun {
    ghost use Rattle.std.specs.Prelude.{ℕ, List};
    ghost use Rattle.design_problem.specs.Problems.{DesignProblem};

    ghost problem: { DesignProblem };

    ghost sets: { List (List ℕ) };
}

impl Begun for Brand {
    ghost use Rattle.std.specs.Prelude.{[]};
    ghost use Rattle.cost_branching.specs.Rivals.{no_problem};

    ghost problem = { no_problem };

    ghost sets = { [] };
}

/// Two members of the set at a place.
#[derive(Clone, Copy)]
pub(crate) struct MemberPair {
    place: usize,
    first: u32,
    second: u32,
}

/// The source whose accepted points are those at which each set's members cost the same and every other simple path of
/// their request costs at least the scale more. Its true forms are those of the rows of the sets. Contracts see the
/// problem, the sets and the rows that are known.
///
/// It keeps what asks for the sets' outsiders, and the rows of the pool's forms, in the same order.
#[derive(Drop)]
pub(crate) struct Spreads<'a, B: Begun> {
    problem: &'a Problem,
    sets: Vec<MemberSet>,
    asker: SetAsker,
    rows: Vec<SetRow>,
    begun: PhantomData<B>,
}

impl<'a, B: Begun> Model for Spreads<'a, B> {
    ghost use Rattle.std.specs.Prelude.{◌≡◌};
    ghost use Rattle.spread_sets.specs.MemberSets.{sets_in};
    ghost use Rattle.spread_sets.specs.SetAskers.{IsAskerOfSets};
    ghost use Rattle.spread_sets.specs.Sources.{KnownSets};

    ghost Value = { KnownSets };

    ghost view = { λ s. record {
      problem = s.problem.now;
      sets = sets_in s.sets.items;
      rows = s.rows.items;
    } };

    ghost invariant = { λ s. record {
      problem : s.problem.now ≡ B.problem;
      sets : sets_in s.sets.items ≡ B.sets;
      asker : IsAskerOfSets s.problem.now s.sets.items s.asker;
    } };
}

impl<'a, B: Begun> Spreads<'a, B> {
    /// The source of a problem's sets, where no row is known yet.
    pub(crate) fn new(
        alloc: Global,
        problem: &'a Problem,
        sets: Vec<MemberSet>,
    ) -> Result<Spreads<'a, B>, OutOfMemory>
        requires problem { problem.now ≡ B.problem }
        requires sets { sets_in sets.items ≡ B.sets }
        requires trees { All (HasTree problem.now) sets.items }
        ensures { IfOk result (λ source. source ≡ record {
          problem = problem.now;
          sets = sets_in sets.items;
          rows = [];
        }) }
    {
        let asker = SetAsker::new(alloc, problem, &sets)?;
        Ok(Spreads {
            problem,
            sets,
            asker,
            rows: Vec::new(alloc),
            begun: PhantomData,
        })
    }

    /// The rows that are known.
    pub(crate) fn into_rows(self) -> Vec<SetRow>
        ensures rows { result.items ≡ self.entry.rows }
        ensures problem { self.entry.problem ≡ B.problem }
        ensures sets { self.entry.sets ≡ B.sets }
    {
        let Spreads {
            problem: _,
            sets: _,
            asker: _,
            rows,
            begun: _,
        } = self;
        rows
    }

    /// For the prover alone: keeps that the problem is one on its graph, and that each set is of wanted paths of it
    /// with one pair of ends; takes no time and changes nothing.
    fn keeps(&self)
        ensures kept { IsProblemOnGraph self.now.problem }
        ensures sets { AreMemberSets self.now.problem self.now.sets }
    {
        keeps_problem_on_graph(self.problem);
    }

    /// How many sets there are.
    fn count(&self) -> usize
        ensures { result ≡ length self.now.sets }
    {
        self.sets.len()
    }

    /// Puts a row at the end, and its form at the end of the pool. Where memory is wanting both are as before.
    fn push_row(&mut self, row: SetRow, form: Form, pool: &mut FormPool) -> Result<(), OutOfMemory>
        requires { form ≡ form_of_set_row self.old.problem row }
        ensures row { OnOk result
            (self.new ≡ record self.old { rows = self.old.rows ++ row ∷ [] }) }
        ensures form { OnOk result (pool.new ≡ pool.old ++ form ∷ []) }
        ensures same_rows { OnErr result (self.new ≡ self.old) }
        ensures same_forms { OnErr result (pool.new ≡ pool.old) }
    {
        if self.rows.reserve(1).is_err() {
            return Err(OutOfMemory);
        }
        pool.push(form)?;
        self.rows.push_reserved(row);
        Ok(())
    }

    /// The number by which the set at a place is named.
    fn name(&self, place: usize) -> u32
        requires { place < length self.now.sets }
        ensures { result ≡ name_of_set (set_at self.now.sets place) }
    {
        first_of(self.sets[place].members.as_slice())
    }

    /// How many members the set at a place has.
    fn members(&self, place: usize) -> usize
        requires { place < length self.now.sets }
        ensures { result ≡ length (set_at self.now.sets place) }
    {
        self.sets[place].members.as_slice().len()
    }

    /// A member of the set at a place.
    fn member(&self, place: usize, number: usize) -> u32
        requires place { place < length self.now.sets }
        requires number { number < length (set_at self.now.sets place) }
        ensures { result ≡ slice_index (set_at self.now.sets place) number }
    {
        self.sets[place].members.as_slice()[number]
    }

    /// Puts the row that keeps the second of two members at least as dear as the first.
    fn push_tie(
        &mut self,
        alloc: Global,
        pair: MemberPair,
        pool: &mut FormPool,
    ) -> Result<(), OutOfMemory>
        requires { IsPairIn self.old.sets pair }
        ensures row { OnOk result (self.new ≡ record self.old {
          rows = self.old.rows ++
              Same (name_of_set (set_at self.old.sets pair.place)) pair.first pair.second ∷ [];
        }) }
        ensures form { OnOk result (pool.new ≡ pool.old ++ form_of_set_row self.old.problem
            (Same (name_of_set (set_at self.old.sets pair.place)) pair.first pair.second) ∷ []) }
    {
        self.keeps();
        let name = self.name(pair.place);
        let form = form_of_tie(alloc, self.problem, pair.first, pair.second)?;
        self.push_row(SetRow::Same(name, pair.first, pair.second), form, pool)
    }

    /// Puts the two rows that keep two members of the set at a place at one cost.
    fn push_both(
        &mut self,
        alloc: Global,
        pair: MemberPair,
        pool: &mut FormPool,
    ) -> Result<(), OutOfMemory>
        requires { IsPairIn self.old.sets pair }
        ensures rows { OnOk result (self.new ≡ record self.old {
          rows = self.old.rows ++
              both_ways (name_of_set (set_at self.old.sets pair.place)) pair.first pair.second;
        }) }
        ensures forms { OnOk result (pool.new ≡ pool.old ++ forms_of_set_rows self.old.problem
            (both_ways (name_of_set (set_at self.old.sets pair.place)) pair.first pair.second)) }
    {
        let back = MemberPair {
            place: pair.place,
            first: pair.second,
            second: pair.first,
        };
        self.push_tie(alloc, pair, pool)?;
        self.push_tie(alloc, back, pool)?;
        Ok(())
    }

    /// Puts the rows that keep each two neighbouring members of the set at a place at one cost.
    fn push_ties(
        &mut self,
        alloc: Global,
        place: usize,
        pool: &mut FormPool,
    ) -> Result<(), OutOfMemory>
        requires { place < length self.old.sets }
        ensures rows { OnOk result
            (self.new ≡ record self.old {
              rows = self.old.rows ++
                  ties_in (set_at self.old.sets place);
            }) }
        ensures forms { OnOk result (pool.new ≡ pool.old ++ forms_of_set_rows self.old.problem
            (ties_in (set_at self.old.sets place))) }
    {
        for number in 1..self.members(place) {
            let first = self.member(place, number - 1);
            let second = self.member(place, number);
            let pair = MemberPair {
                place,
                first,
                second,
            };
            self.push_both(alloc, pair, pool)?;
        }
        Ok(())
    }

    /// Puts the rows with which a search begins, and their forms: those that keep the members of each set at one cost.
    pub(crate) fn begin(&mut self, alloc: Global, pool: &mut FormPool) -> Result<(), OutOfMemory>
        requires rows { self.old.rows ≡ [] }
        requires forms { pool.old ≡ [] }
        ensures same { OnOk result (self.new ≡ record self.old { rows = tie_rows self.old.sets }) }
        ensures in_step { OnOk result (IsPoolOfSets self.new pool.new) }
    {
        for place in 0..self.count() {
            self.push_ties(alloc, place, pool)?;
        }
        Ok(())
    }

    /// Puts the row of an outsider of the set at a place that is too cheap at some point.
    fn push_outsider(
        &mut self,
        alloc: Global,
        place: usize,
        edges: &[u32],
        pool: &mut FormPool,
    ) -> Result<(), OutOfMemory>
        requires place { place < length self.old.sets }
        requires cheap { (point : Point) × IsOutsiderTooCheap self.old.problem point
            (set_at self.old.sets place) edges.now }
        ensures one { IfOk result (λ _. (point : Point) →
            IsOutsiderTooCheap self.old.problem point (set_at self.old.sets place) edges.now →
            OneSetRow point place self.old pool.old self.new pool.new) }
        ensures same_rows { OnErr result (self.new ≡ self.old) }
        ensures same_forms { OnErr result (pool.new ≡ pool.old) }
    {
        self.keeps();
        let name = self.name(place);
        let row = row_of(alloc, name, edges)?;
        let form = form_of(alloc, self.problem, &row)?;
        self.push_row(SetRow::Outsider(row.request, row.rival), form, pool)?;
        Ok(())
    }

    /// Puts the row of the outsider that was found for the set at a place, if one was, and tells whether.
    fn take_outsider(
        &mut self,
        alloc: Global,
        place: usize,
        outsider: &Option<Listed<u32>>,
        pool: &mut FormPool,
    ) -> Result<bool, OutOfMemory>
        requires place { place < length self.old.sets }
        requires told { (point : Point) × IsOutsiderIfAny self.old.problem point
            (set_at self.old.sets place) outsider.now }
        ensures one { IfOk result (λ added. (point : Point) →
            IsOutsiderIfAny self.old.problem point (set_at self.old.sets place) outsider.now →
            IsSetAsked point place self.old pool.old self.new pool.new added) }
        ensures same_rows { OnErr result (self.new ≡ self.old) }
        ensures same_forms { OnErr result (pool.new ≡ pool.old) }
    {
        match outsider {
            Some(edges) => {
                self.push_outsider(alloc, place, edges.as_slice(), pool)?;
                Ok(true)
            }
            None => Ok(false),
        }
    }

    /// The cheapest outsider of each set, where the members of each tie, None of each that shares.
    fn cheap_outsiders(
        &mut self,
        alloc: Global,
        point: &Point,
    ) -> Result<Vec<Option<Listed<u32>>>, OutOfMemory>
        requires point { IsCostPoint (length self.old.problem.low) point.now }
        requires tied { All (AreTied self.old.problem point.now) self.old.sets }
        ensures same { self.new ≡ self.old }
        ensures told { IfOk result (λ outsiders. AreOutsidersIfAny self.old.problem point.now
            self.old.sets outsiders.items) }
    {
        self.asker
            .cheap_outsiders(alloc, self.problem, &self.sets, point)
    }

    /// Asks each set in order for its cheapest outsider. Each that costs less than the members and the scale becomes a
    /// row. Sets whose requests have one end and exclude the same edges share the distances by which it is found.
    fn ask_each(
        &mut self,
        alloc: Global,
        point: &Point,
        pool: &mut FormPool,
    ) -> Result<Asked, OutOfMemory>
        // The rows are in step with the pool, no form of which is negative at the point of costs.
        requires in_step { IsPoolOfSets self.old pool.old }
        requires point { IsCostPoint (length self.old.problem.low) point.now }
        requires met { AreMet pool.old point.now }

        // Nothing comes exactly where each set shares at the point, and what comes are true forms.
        ensures asked { IfOk result (AreAllSetsAsked point.now self.old pool.old self.new
            pool.new) }
        ensures grows { Grows (IsTrueOfSets self.old.problem self.old.sets) pool.old pool.new }

        // The problem and its sets are as before.
        ensures problem { self.new.problem ≡ self.old.problem }
        ensures sets { self.new.sets ≡ self.old.sets }
    {
        self.keeps();
        let outsiders = self.cheap_outsiders(alloc, point)?;
        let mut asked = Asked::Nothing;
        for place in 0..self.count() {
            if self.take_outsider(alloc, place, &outsiders[place], pool)? {
                asked = Asked::Added;
            }
        }
        Ok(asked)
    }

    /// Whether the members of each set tie, and every other path is dearer by the scale. It takes no memory.
    fn shares_each(&mut self, point: &Point) -> bool
        requires { IsCostPoint (length self.old.problem.low) point.now }
        ensures same { self.new ≡ self.old }
        ensures answer { IsTrue result ↔ SharesEach self.old.problem self.old.sets point.now }
    {
        self.asker.each_shares(self.problem, &self.sets, point)
    }
}

impl<'a, B: Begun> FormSource for Spreads<'a, B> {
    ghost use Rattle.std.specs.Prelude.{length};
    ghost use Rattle.spread_sets.specs.Spreads.{SharesEach};
    ghost use Rattle.spread_sets.specs.Sources.{IsPoolOfSets, IsTrueOfSets, possible_forms_of};
    ghost use Rattle.spread_sets.specs.SourceLaws.{set_scale_is_free, set_forms_hold, set_forms_listed};

    ghost count = { λ s. length s.problem.low };

    ghost accepted = { λ s. SharesEach s.problem s.sets };

    ghost true_form = { λ s. IsTrueOfSets s.problem s.sets };

    ghost in_step = { λ s forms. IsPoolOfSets s forms };

    ghost possible_forms = { λ s. possible_forms_of s.problem };

    fn variables(&self) -> u32 {
        variable_count(self.problem)
    }

    fn ask(&mut self, point: &Point, pool: &mut FormPool) -> Result<Asked, OutOfMemory> {
        self.ask_each(pool.alloc(), point, pool)
    }

    fn accepts(&mut self, point: &Point) -> bool {
        self.shares_each(point)
    }

    ghost true_forms_hold = { λ s. set_forms_hold s.problem s.sets };

    ghost true_forms_listed = { λ s. set_forms_listed s.problem s.sets };

    ghost scale_is_free = { λ s. set_scale_is_free s.problem s.sets };
}
