//! What a tableau answers to a line of a script.
ghost use Rattle.std.specs.Prelude.{◌≡◌, ◌^◌, ◌<◌, length, IfOk};
ghost use Rattle.design_problem.specs.Boxes.{IsBox};
ghost use Rattle.fraction_table.specs.declared.stage.Solved.TheVariants.{Feasible, Refuted};
ghost use Rattle.fraction_table.specs.declared.stage.Stage.TheVariants.{Ended};

use crate::command::{Command, read_command};
use crate::scene::{Scene, scene_of};
use crate::search::search_text;
use crate::words::{Members, MultiplierWords};
use area_graph::Point;
use case_scripts::{Script, Spaced, Step};
use cost_base::Listed;
use design_problem::{CostBox, Form, Multipliers};
use exact_simplex::Tableau;
use fraction_table::{SimplexStop, Solved, is_box};
use std::alloc::{AllocError, Global};
use std::io;
use wide_fraction::Top;

/// The scene at hand, if a script began one.
#[derive(Drop)]
pub struct SceneAtHand {
    scene: Option<Scene>,
}

impl SceneAtHand {
    /// No scene.
    pub(crate) fn new() -> SceneAtHand {
        SceneAtHand { scene: None }
    }
}

/// The members of the basis.
fn basis(alloc: Global, tableau: &Tableau) -> Result<String, AllocError> {
    match tableau.basis(alloc) {
        Ok(members) => format!(in alloc; ":{}", Members(members.as_slice())),
        Err(_) => Err(AllocError),
    }
}

/// A tableau over this box in place of the one at hand.
fn begin(
    alloc: Global,
    scene: &mut Option<Scene>,
    costs: &CostBox,
    top: Top,
) -> Result<String, AllocError>
    requires ranges { IsBox (length costs.now.low) costs.now }
    requires few { length costs.now.low < 2 ^ 32 }
{
    *scene = Some(scene_of(alloc, costs, top)?);
    String::from_str(alloc, ": started")
}

/// Another tableau in place of the one at hand, where there is one of this width and over these ranges.
fn start(
    alloc: Global,
    scene: &mut Option<Scene>,
    bits: u32,
    costs: &CostBox,
) -> Result<String, AllocError> {
    let Some(top) = Top::new(bits) else {
        return String::from_str(alloc, ": no width");
    };
    if !is_box(costs) {
        return String::from_str(alloc, ": no box");
    }
    begin(alloc, scene, costs, top)
}

/// One more row, where it fits.
fn add(alloc: Global, tableau: &mut Tableau, form: &Form) -> Result<String, AllocError> {
    if !tableau.takes(form) {
        return String::from_str(alloc, ": doesn't fit");
    }
    match tableau.add_row(alloc, form) {
        Ok(()) => String::from_str(alloc, ": added"),
        Err(SimplexStop::TooWide(wide)) => format!(in alloc; ": {}", Step(wide)),
        Err(SimplexStop::OutOfMemory) => Err(AllocError),
    }
}

/// Other ranges, where the rows fit them.
fn change(alloc: Global, tableau: &mut Tableau, costs: &CostBox) -> Result<String, AllocError> {
    if !tableau.fits(costs) {
        return String::from_str(alloc, ": doesn't fit");
    }
    match tableau.rebase(costs) {
        Ok(()) => String::from_str(alloc, ": moved"),
        Err(wide) => format!(in alloc; ": {}", Step(wide)),
    }
}

/// A point with a place for each variable.
fn origin(alloc: Global, tableau: &Tableau) -> Result<Point, AllocError>
    ensures { IfOk result (λ point. length point.values ≡ length tableau.now.costs.low) }
{
    match tableau.basis(alloc) {
        Ok(members) => Ok(Point {
            scale: 1,
            values: Listed::from_items(vec![in alloc; 0u128; members.len()]?),
        }),
        Err(_) => Err(AllocError),
    }
}

/// The least point, which comes into `point`.
fn point_text(alloc: Global, tableau: &Tableau, point: &mut Point) -> Result<String, AllocError>
    requires solved { tableau.now.stage ≡ Ended Feasible }
    requires places { length point.old.values ≡ length tableau.now.costs.low }
{
    match tableau.point(point) {
        Ok(()) => format!(in alloc;
            ": feasible, least point{} over {}",
            Spaced(point.values.as_slice()),
            point.scale
        ),
        Err(wide) => format!(in alloc; ": feasible, {}", Step(wide)),
    }
}

/// The least point of a tableau that was found feasible.
fn least(alloc: Global, tableau: &Tableau) -> Result<String, AllocError>
    requires { tableau.now.stage ≡ Ended Feasible }
{
    let mut point = origin(alloc, tableau)?;
    point_text(alloc, tableau, &mut point)
}

/// The multipliers, which come into `parts`.
fn parts_text(
    alloc: Global,
    tableau: &Tableau,
    form: u64,
    parts: &mut Multipliers,
) -> Result<String, AllocError>
    requires { tableau.now.stage ≡ Ended (Refuted form) }
{
    match tableau.multipliers(alloc, form, parts) {
        Err(SimplexStop::OutOfMemory) => Err(AllocError),
        Err(SimplexStop::TooWide(wide)) => {
            format!(in alloc; ": refuted at form {form}, {}", Step(wide))
        }
        Ok(()) => format!(in alloc;
            ": refuted at form {form}, multipliers{}",
            MultiplierWords(parts.as_slice())
        ),
    }
}

/// The multipliers of a tableau that was found refuted at a form.
fn multipliers(alloc: Global, tableau: &Tableau, form: u64) -> Result<String, AllocError>
    requires { tableau.now.stage ≡ Ended (Refuted form) }
{
    let mut parts = Multipliers::from_items(Vec::new(alloc));
    parts_text(alloc, tableau, form, &mut parts)
}

/// What solving answers.
fn solve(alloc: Global, tableau: &mut Tableau) -> Result<String, AllocError> {
    match tableau.solve() {
        Ok(Solved::Feasible) => least(alloc, tableau),
        Ok(Solved::Refuted(form)) => multipliers(alloc, tableau, form),
        Err(wide) => format!(in alloc; ": {}", Step(wide)),
    }
}

/// What the scene at hand answers to what a line asks for.
fn answer_to(
    alloc: Global,
    scene: &mut Option<Scene>,
    asked: &Command,
) -> Result<String, AllocError> {
    if let Command::Start(bits, costs) = asked {
        return start(alloc, scene, *bits, costs);
    }
    let Some(scene) = scene else {
        return String::from_str(alloc, "");
    };
    match asked {
        Command::Row(form) => {
            scene.learn(alloc, form)?;
            add(alloc, &mut scene.tableau, form)
        }
        Command::Move(costs) => change(alloc, &mut scene.tableau, costs),
        Command::Solve => solve(alloc, &mut scene.tableau),
        Command::Basis => basis(alloc, &scene.tableau),
        Command::Search(nodes, picks) => search_text(alloc, scene, *nodes, picks),
        _ => String::from_str(alloc, ""),
    }
}

/// What the scene at hand answers to a line.
fn reply(alloc: Global, scene: &mut Option<Scene>, line: &str) -> Result<String, AllocError> {
    let asked = read_command(alloc, line)?;
    answer_to(alloc, scene, &asked)
}

impl Script for SceneAtHand {
    fn answer(&mut self, alloc: Global, line: &str) -> io::Result<String> {
        Ok(reply(alloc, &mut self.scene, line)?)
    }
}
