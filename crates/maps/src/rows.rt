// A row one level up, and back. Means and differences are two slices, since they stand in two places of a tower.
ghost use Rattle.std.specs.Prelude.{◌≡◌, ℕ, ◌+◌, ◌-◌, ◌*◌, ◌/◌, ◌%◌, ◌<◌, ◌≤◌, min, length};
ghost use Rattle.pairs.specs.Pairs.{Height};
ghost use Rattle.maps.specs.Rows.{line, PairsBack, RowBack, RowHalved};

use crate::lanes::four_back;
use pairs::Pair;

// A row of heights halved: the means of its pairs, and a last place alone, and the differences of its pairs. Both rooms may be
// longer; nothing past the row's numbers is another.
pub fn halve_row(row: &[i32], means: &mut [i32], differences: &mut [i32])
    requires lengths { ((length row.now + 1) / 2 ≤ length means.old) × (length row.now / 2 ≤ length differences.old) }
    requires heights { (i : ℕ) → i < length row.now → Height (line row.now i) }
    ensures { RowHalved row.now means.old means.new differences.old differences.new }
{
    let (pairs, last) = row.as_chunks::<2>();
    for (i, &[left, right]) in pairs.iter().enumerate() {
        let pair = Pair::of(left, right);
        means[i] = pair.mean;
        differences[i] = pair.difference;
    }
    if let Some(&alone) = last.first() {
        means[pairs.len()] = alone;
    }
}

// Places of a row from its means and differences: as many as fit into `row`, from the place `from` of a row of so many places on.
// The means and the differences begin with those of its pair. A last place alone is its mean.
pub fn row_back(places: usize, from: usize, means: &[i32], differences: &[i32], row: &mut [i32])
    requires place { from + length row.old ≤ places }
    requires means { length row.old ≤ 2 * length means.now - from % 2 }
    requires differences { min (length row.old) (2 * (places / 2) - from) ≤ 2 * length differences.now - from % 2 }
    ensures { RowBack places from (length row.old) means.now differences.now row.new }
{
    let w = row.len();
    if w > 0 && from + w > 2 * (places / 2) {
        row[w - 1] = means[(from % 2 + (w - 1)) / 2];
        pairs_back(from, means, differences, &mut row[0..w - 1]);
    } else {
        pairs_back(from, means, differences, row);
    }
}

// Places of whole pairs, from the first or the second of one on.
fn pairs_back(from: usize, means: &[i32], differences: &[i32], row: &mut [i32])
    requires means { length row.old ≤ 2 * length means.now - from % 2 }
    requires differences { length row.old ≤ 2 * length differences.now - from % 2 }
    ensures { PairsBack from (length row.old) means.now differences.now row.new }
{
    let w = row.len();
    if from % 2 == 0 {
        even_back(means, differences, row);
    } else if w > 0 {
        let pair = Pair {
            mean: means[0],
            difference: differences[0],
        };
        row[0] = pair.second();
        even_back(
            &means[1..means.len()],
            &differences[1..differences.len()],
            &mut row[1..w],
        );
    }
}

// Places of whole pairs, from the first of one on: four pairs at once, as long as there are so many.
fn even_back(means: &[i32], differences: &[i32], row: &mut [i32])
    requires { (length row.old ≤ 2 * length means.now) × (length row.old ≤ 2 * length differences.now) }
    ensures { PairsBack 0 (length row.old) means.now differences.now row.new }
{
    let w = row.len();
    let fours = w / 8;
    // by index: tried with `as_chunks_mut`, after which nothing is known of the row
    for i in 0..fours {
        four_back(
            &means[4 * i..4 * i + 4],
            &differences[4 * i..4 * i + 4],
            &mut row[8 * i..8 * i + 8],
        );
    }
    rest_back(
        &means[4 * fours..means.len()],
        &differences[4 * fours..differences.len()],
        &mut row[8 * fours..w],
    );
}

// The same, one place after the other.
fn rest_back(means: &[i32], differences: &[i32], row: &mut [i32])
    requires { (length row.old ≤ 2 * length means.now) × (length row.old ≤ 2 * length differences.now) }
    ensures { PairsBack 0 (length row.old) means.now differences.now row.new }
{
    for (i, place) in row.iter_mut().enumerate() {
        let pair = Pair {
            mean: means[i / 2],
            difference: differences[i / 2],
        };
        *place = pair.one(i);
    }
}
