//! The lines of a comparison.
ghost use Rattle.std.specs.Prelude.{◌≡◌, [], ◌∷◌, IfOk, codes};
ghost use Rattle.cost_base.specs.Decimal.{decimal};
ghost use Rattle.line_builder.specs.Words.{dotted_quad, line_of_words};
ghost use Rattle.database_commands.specs.Compares.{difference_text, difference_words};

use cost_base::OutOfMemory;
use line_builder::LineBuilder;
use live_area::Difference;
use lsdb_build::Lsdb;
use std::alloc::Global;
use text_lines::push_bytes;

/// The line of a router without a router-LSA.
fn absent_line(alloc: Global, lsdb: &Lsdb, router: u32) -> Result<Vec<u8>, OutOfMemory>
    ensures { IfOk result
        (λ line. line.items ≡
        line_of_words (difference_words lsdb.now (Difference.Absent router))) }
{
    let mut line = LineBuilder::new(alloc, b"absent")?;
    line.word(lsdb.router_name(router))?;
    line.ended()
}

/// The line of an interface whose link has another metric than its present cost.
fn cost_line(
    alloc: Global,
    lsdb: &Lsdb,
    link: u32,
    file: u16,
    live: u16,
) -> Result<Vec<u8>, OutOfMemory>
    ensures { IfOk result
        (λ line. line.items ≡
        line_of_words (difference_words lsdb.now (Difference.Cost link file live))) }
{
    let mut line = LineBuilder::new(alloc, b"cost")?;
    line.word(lsdb.link_router(link))?;
    line.word(lsdb.link_interface(link))?;
    line.word(b"file")?;
    line.number(u128::from(file))?;
    line.word(b"live")?;
    line.number(u128::from(live))?;
    line.ended()
}

/// The line of an interface without a link.
fn missing_line(alloc: Global, lsdb: &Lsdb, link: u32) -> Result<Vec<u8>, OutOfMemory>
    ensures { IfOk result
        (λ line. line.items ≡ line_of_words (difference_words lsdb.now (Difference.Missing link))) }
{
    let mut line = LineBuilder::new(alloc, b"missing")?;
    line.word(lsdb.link_router(link))?;
    line.word(lsdb.link_interface(link))?;
    line.ended()
}

/// The line of a router-LSA whose router ID no configuration has.
fn stranger_line(alloc: Global, router: u32) -> Result<Vec<u8>, OutOfMemory>
    ensures { IfOk result
        (λ line. line.items ≡ line_of_words (codes "stranger" ∷ dotted_quad router ∷ [])) }
{
    let mut line = LineBuilder::new(alloc, b"stranger")?;
    line.quad(router)?;
    line.ended()
}

/// The line of a link that is that of no linked interface.
fn unknown_line(alloc: Global, router: u32, address: u32, live: u16) -> Result<Vec<u8>, OutOfMemory>
    ensures { IfOk result
        (λ line. line.items ≡ line_of_words (codes "unknown" ∷ dotted_quad router ∷
        dotted_quad address ∷ codes "live" ∷ decimal live ∷ [])) }
{
    let mut line = LineBuilder::new(alloc, b"unknown")?;
    line.quad(router)?;
    line.quad(address)?;
    line.word(b"live")?;
    line.number(u128::from(live))?;
    line.ended()
}

/// The line that counts the interfaces.
fn same_line(alloc: Global, same: u32, linked: u32) -> Result<Vec<u8>, OutOfMemory>
    ensures { IfOk result
        (λ line. line.items ≡ line_of_words (codes "same" ∷ decimal same ∷ codes "of" ∷
        decimal linked ∷ [])) }
{
    let mut line = LineBuilder::new(alloc, b"same")?;
    line.number(u128::from(same))?;
    line.word(b"of")?;
    line.number(u128::from(linked))?;
    line.ended()
}

/// A line of a comparison, with its LF.
fn difference_line(alloc: Global, lsdb: &Lsdb, line: Difference) -> Result<Vec<u8>, OutOfMemory>
    ensures { IfOk result (λ text. text.items ≡ line_of_words (difference_words lsdb.now line)) }
{
    match line {
        Difference::Absent { router } => absent_line(alloc, lsdb, router),
        Difference::Cost { link, file, live } => cost_line(alloc, lsdb, link, file, live),
        Difference::Missing { link } => missing_line(alloc, lsdb, link),
        Difference::Stranger { router } => stranger_line(alloc, router),
        Difference::Unknown {
            router,
            address,
            live,
        } => unknown_line(alloc, router, address, live),
        Difference::Same { same, linked } => same_line(alloc, same, linked),
    }
}

/// The text of a comparison, line by line.
pub fn text_of_lines(
    alloc: Global,
    lsdb: &Lsdb,
    lines: &[Difference],
) -> Result<Vec<u8>, OutOfMemory>
    ensures { IfOk result (λ text. text.items ≡ difference_text lsdb.now lines.now) }
{
    let mut text = Vec::new(alloc);
    for line in lines {
        let bytes = difference_line(alloc, lsdb, *line)?;
        push_bytes(&mut text, &bytes)?;
    }
    Ok(text)
}
