// What the program says of all cuts.
use crate::cuts::Totals;
use test_output::recut;

// What the walks of all cuts told, and whether something differs.
pub fn tried(t: Totals) {
    let cuts = t.whole.saturating_add(t.cut);
    recut::cuts(cuts, t.whole, t.cut);
    recut::before(t.listed, t.behind);
    recut::after(t.appended, t.listed_again, t.bytes);
    recut::ended(cuts, t.again, t.what);
}
