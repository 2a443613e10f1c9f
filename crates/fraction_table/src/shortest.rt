//! Which of two rows is the shorter one.
ghost use Rattle.std.specs.Prelude.{◌≡◌, ◌<◌, ◌≤◌, length};
ghost use Rattle.fraction_table.specs.PivotForms.{terms_in};

use design_problem::Form;

/// How many terms a row's form has.
fn count_terms(rows: &[Form], row: usize) -> usize
    requires { row < length rows.now }
    ensures { result ≡ terms_in rows.now row }
{
    rows[row].terms().len()
}

/// Of two rows the one with fewer terms; the earlier one where they have as many.
pub fn shorter_row(rows: &[Form], earlier: usize, later: usize) -> usize
    requires earlier_in { earlier < length rows.now }
    requires later_in { later < length rows.now }
    ensures earlier { terms_in rows.now earlier ≤ terms_in rows.now later → result ≡ earlier }
    ensures later { terms_in rows.now later < terms_in rows.now earlier → result ≡ later }
{
    if count_terms(rows, later) < count_terms(rows, earlier) {
        later
    } else {
        earlier
    }
}
