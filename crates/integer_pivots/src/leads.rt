//! The first variable with a number in each column.
ghost use Rattle.std.specs.Prelude.{◌≡◌, ◌≢◌, ◌<◌, List, pos, ◌<ℤ◌, length, All};
ghost use Rattle.whole_numbers.specs.Lists.{number_at};
ghost use Rattle.integer_pivots.specs.declared.line.Line.{Line};
ghost use Rattle.integer_pivots.specs.Leads.{AreLeads, AreZeros, IsLead};
ghost use Rattle.integer_pivots.specs.Lines.{rows_of};
ghost use Rattle.integer_pivots.specs.Turns.{AreTurnedLines};

use crate::line::Line;

/// The first variable from one on whose number at a column isn't 0; how many variables there are, where there is none.
fn lead_from(lines: &[Line], column: usize, first: usize) -> usize
    requires long { All (λ line. column < length line.numbers) lines.now }
    ensures { AreZeros (rows_of lines.now) column first → IsLead (rows_of lines.now) column result }
{
    for var in first..lines.len() {
        if lines[var].numbers.at(column) != 0 {
            return var;
        }
    }
    lines.len()
}

/// The lead of a column after a pivot, by the number across, its lead before it, and that of the pivot's column.
fn turned_lead(lines: &[Line], column: usize, across: i64, own: usize, pivots: usize) -> usize
    requires long { All (λ line. column < length line.numbers) lines.now }
    ensures same { across ≡ pos 0 → result ≡ own }
    ensures earlier { own < pivots → result ≡ own }
    ensures later { across ≢ pos 0 → pivots < own → result ≡ pivots }
    ensures level { across ≢ pos 0 → own ≡ pivots → AreZeros (rows_of lines.now) column own →
        IsLead (rows_of lines.now) column result }
{
    if across == 0 || own < pivots {
        return own;
    }
    if pivots < own {
        return pivots;
    }
    lead_from(lines, column, own)
}

/// The leads after a pivot, once the lines have turned.
pub fn turn_leads(leads: &mut [usize], lines: &[Line], entering: &Line, column: usize)
    // There is a lead for each column, and each line is as wide as the entering one.
    requires leads { length leads.old ≡ length entering.now.numbers }
    requires each { All (λ line. length line.numbers ≡ length entering.now.numbers) lines.now }

    // The entering line is positive at the pivot's column, over a positive denominator.
    requires column { column < length entering.now.numbers }
    requires pivot { pos 0 <ℤ number_at entering.now.numbers column }
    requires denominator { pos 0 <ℤ entering.now.denominator }

    // The leads of the lines before the pivot become those of the turned lines, as many as before.
    ensures count { length leads.new ≡ length leads.old }
    ensures leads { (olds : List Line) → AreTurnedLines entering.now column olds lines.now →
        All (λ line. pos 0 <ℤ line.denominator) olds → AreLeads (rows_of olds) leads.old →
        AreLeads (rows_of lines.now) leads.new }
{
    let pivots = leads[column];
    let across = entering.numbers.as_slice();
    for other in 0..across.len() {
        leads[other] = turned_lead(lines, other, across[other], leads[other], pivots);
    }
}

/// The first variable with a number in each column, into the leads.
pub fn put_leads(leads: &mut [usize], lines: &[Line])
    requires each { All (λ line. length line.numbers ≡ length leads.old) lines.now }
    ensures count { length leads.new ≡ length leads.old }
    ensures leads { AreLeads (rows_of lines.now) leads.new }
{
    for column in 0..leads.len() {
        leads[column] = lead_from(lines, column, 0);
    }
}
