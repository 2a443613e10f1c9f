//! The prices and the names of links, and the problem that is made of them.
ghost use Rattle.std.specs.Prelude.{◌≡◌, ◌<◌, ◌≤◌, ◌^◌, ◌++◌, ◌∷◌, [], Some, nat_lt, if◌then◌else◌, length, slice_get, slice_index_or, IfOk, OnOk};
ghost use Rattle.std.specs.List.{filter_map};
ghost use Rattle.lsdb_build.specs.Graphs.{graph_at};
ghost use Rattle.path_requests.specs.Meaning.{range_of, is_free, owners, variable_of, present_cost, price_of, prices_from, names_from, problem_of};
ghost use Rattle.wanted_paths.specs.Paths.{request_of};
ghost use Rattle.wanted_paths.specs.LineFaults.{line_faults};
ghost use Rattle.path_requests.specs.Resolving.{ends_faults, cost_faults};
ghost use Rattle.wanted_paths.specs.Paths.{outline};

use crate::choices::Choices;
use crate::ranges::Range;
use crate::variables::{high_bounds, is_free, low_bounds, owner};
use area_graph::{Graph, Price};
use cost_base::{Listed, OutOfMemory};
use design_problem::{Problem, Request, VarName, var_name};
use lsdb_build::Linked;
use request_reader::RequestFile;
use std::alloc::Global;

/// The present cost of a link's interface; the default of the request file where it has none, and 0 where
/// there is none.
pub fn present_cost(request_file: &RequestFile, link: &Linked) -> u16
    ensures { result ≡ present_cost request_file.now link.now }
{
    link.cost.unwrap_or(request_file.default_cost.unwrap_or(0))
}

/// Choices, and the links with a variable of their own in order, by which the variables are numbered.
#[derive(Drop)]
struct Numbering<'a> {
    choices: &'a Choices<'a>,
    own: &'a [u32],
    ghost few: { length own.now < 2 ^ 32 },
    ghost all: { own.now ≡ owners choices.now.asked choices.now.database },
}

impl<'a> Numbering<'a> {
    /// The number of a link's variable: how many links with a variable of their own stand before its owner. These stand
    /// in order, so it is found by halving.
    fn variable_of(&self, number: u32, link: &Linked) -> u32
        requires { slice_get self.now.choices.now.database.links number ≡ Some link.now }
        ensures { result ≡ variable_of self.now.choices.now.asked self.now.choices.now.database
            number }
    {
        let owner = owner(self.choices, number, link);
        self.own.partition_point(
            |link: &u32| -> bool
                ensures { result ≡ nat_lt link.now owner }
            { *link < owner },
        ) as u32
    }

    /// The price of a link: its variable where it is free, else its present cost.
    fn price_of(&self, number: u32, link: &Linked) -> Price
        requires { slice_get self.now.choices.now.database.links number ≡ Some link.now }
        ensures { result ≡ price_of self.now.choices.now.asked self.now.choices.now.database number
            link.now (range_of self.now.choices.now.asked self.now.choices.now.database link.now) }
    {
        match self.choices.range_of(number) {
            Range::Within(_, _) => Price::Var(self.variable_of(number, link)),
            Range::AsItIs => Price::Fixed(present_cost(self.choices.request_file(), link)),
        }
    }

    /// The prices of the links, in order.
    fn prices(&self, alloc: Global) -> Result<Vec<Price>, OutOfMemory>
        ensures { IfOk result (λ made. made.items ≡ prices_from self.now.choices.now.asked
            self.now.choices.now.database 0 self.now.choices.now.database.links) }
    {
        let mut made = Vec::new(alloc);
        for (i, link) in self.choices.links().iter().enumerate() {
            let price = self.price_of(i as u32, link);
            made.push(price)?;
        }
        Ok(made)
    }

    /// Appends the name of a link, where it is free.
    fn push_name(
        &self,
        alloc: Global,
        number: u32,
        link: &Linked,
        made: &mut Vec<VarName>,
    ) -> Result<(), OutOfMemory>
        requires { slice_get self.now.choices.now.database.links number ≡ Some link.now }
        ensures { OnOk result (made.new.items ≡ made.old.items ++
            (if is_free (range_of self.now.choices.now.asked self.now.choices.now.database
            link.now) then
            record {
              router = slice_index_or self.now.choices.now.database.routers link.now.router [];
              interface = link.now.interface;
              var = variable_of self.now.choices.now.asked self.now.choices.now.database number;
            } ∷ [] else [])) }
    {
        if is_free(self.choices.range_of(number)) {
            let var = self.variable_of(number, link);
            let router = self.choices.names().router_name(link.router);
            let name = var_name(alloc, router, link.interface.as_bytes(), var)?;
            made.push(name)?;
        }
        Ok(())
    }

    /// The names of the free links, in order, each with the number of its variable.
    fn var_names(&self, alloc: Global) -> Result<Vec<VarName>, OutOfMemory>
        ensures { IfOk result (λ made. made.items ≡ names_from self.now.choices.now.asked
            self.now.choices.now.database 0 self.now.choices.now.database.links) }
    {
        let mut made = Vec::new(alloc);
        for (i, link) in self.choices.links().iter().enumerate() {
            self.push_name(alloc, i as u32, link, &mut made)?;
        }
        Ok(made)
    }

    /// The graph of the area at the prices of its links.
    fn priced_graph(&self, alloc: Global) -> Result<Graph, OutOfMemory>
        requires { cost_faults self.now.choices.now.asked self.now.choices.now.database 0
            self.now.choices.now.database.links ≡ [] }
        ensures { IfOk result (λ graph. graph ≡ graph_at self.now.choices.now.database
            (prices_from self.now.choices.now.asked self.now.choices.now.database 0
            self.now.choices.now.database.links)) }
    {
        // For the prover: what the types of a request file and of an area keep is known once their parts are read.
        let _request_file = self.choices.request_file();
        let _links = self.choices.links();
        let prices = self.prices(alloc)?;
        self.choices.names().graph(alloc, prices.as_slice())
    }
}

/// The problem of a request file whose lines have no fault, with its paths and the links with a variable of their own.
pub fn assemble(
    alloc: Global,
    choices: &Choices,
    own: &[u32],
    requests: Vec<Request>,
) -> Result<Problem, OutOfMemory>
    // The links that own a variable, at most 1,000, and the paths are those of the request file.
    requires few { length own.now ≤ 1000 }
    requires own { own.now ≡ owners choices.now.asked choices.now.database }
    requires requests { requests.items ≡ filter_map (λ item. request_of choices.now.database
        (outline choices.now.database) item.what) choices.now.asked.items }

    // No line of the request file has a fault.
    requires lines { line_faults choices.now.database choices.now.asked.items ≡ [] }
    requires ends { ends_faults choices.now.asked choices.now.database choices.now.asked.items ≡
        [] }
    requires costs { cost_faults choices.now.asked choices.now.database 0
        choices.now.database.links ≡ [] }
    ensures { IfOk result (λ problem. problem ≡ problem_of choices.now.asked choices.now.database) }
{
    // For the prover: what the types of a request file and of an area keep is known once their parts are read.
    let _request_file = choices.request_file();
    let _links = choices.links();
    let numbering = Numbering { choices, own };
    let graph = numbering.priced_graph(alloc)?;
    let vars = numbering.var_names(alloc)?;
    let low = low_bounds(alloc, choices, own)?;
    let high = high_bounds(alloc, choices, own)?;
    Ok(Problem {
        graph,
        vars: Listed::from_items(vars),
        low: Listed::from_items(low),
        high: Listed::from_items(high),
        requests: Listed::from_items(requests),
    })
}
