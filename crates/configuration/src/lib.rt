// Whether a configuration is allowed: reason 14, found from the bytes of its rows (document 01, "Who brings a refusal about").
#![tactic(auto)]

ghost use Rattle.std.specs.Prelude.{◌≡◌, ◌&&◌, ◌*◌, ◌^◌, ◌≤◌, ◌<◌, length, Some, None, cond, leb, drop};
ghost use Rattle.std.specs.Option.{option_copied};
ghost use Rattle.rules.specs.Bytes.{int, parts, distinct, all_zero};
ghost use Rattle.rules.specs.Row as rules;
ghost use Rattle.configuration.specs.Passing.{fields_pass, action_passes, ids, actions_pass};

use numbers::integer;
use rows::Field;

// ---- reason 14, on the 53 bytes of a row

// The first `count` records of N bytes each in four places. None where there are not so many places, or one past them is not 0.
fn held<const N: usize>(count: u8, places: &[u8]) -> Option<&[[u8; N]]>
    requires { (0 < N) × (length places.now ≡ 4 * N) }
    ensures { option_copied result ≡ cond (leb count 4 && all_zero (drop (N * count) places.now)) (Some (parts count N places.now)) None }
{
    let n = usize::from(count);
    let records = places.as_chunks().0.get(..n)?;
    buffers::all_zero(&places[N * n..]).then_some(records)
}

// The id that a record begins with: four bytes, or all if there are fewer.
fn id<const N: usize>(b: &[u8; N]) -> u64
    ensures { result ≡ int 0 4 b.now }
{
    integer(b, 0, N.min(4))
}

// Whether no id of these records is repeated: each is looked for among the later ones.
fn ids_distinct<const N: usize>(records: &[[u8; N]]) -> bool
    ensures { result ≡ distinct (ids records.now) }
{
    let mut rest = records;
    while let Some((first, later)) = rest.split_first() {
        let own = id(first);
        if later.iter().map(id).any(|other| own == other) {
            return false;
        }
        rest = later;
    }
    true
}

// Kinds 1 to 5 and widths 1 to 128 of the fields, 1 to 4 of them, and nothing past their count.
fn fields_allowed(b: &[u8; rules::ROW]) -> bool
    ensures { result ≡ fields_pass b.now }
{
    let Some(fields) = held(b[7], &b[8..16]) else {
        return false;
    };
    fields.iter().all(|f| Field::read(f).allowed()) && !fields.is_empty()
}

// An action of nine bytes: 01 in its id's top byte, at most four parameters, widths 1 to 128, and nothing past their count.
fn action_allowed(a: &[u8; 9]) -> bool
    ensures { result ≡ action_passes a.now }
{
    let Some(widths) = held::<1>(a[4], &a[5..]) else {
        return false;
    };
    widths.iter().all(|w| rows::width_allowed(w[0])) && a[0] == 1
}

// The actions, 1 to 4 of them, no id repeated, and nothing past their count.
fn actions_allowed(b: &[u8; rules::ROW]) -> bool
    ensures { result ≡ actions_pass b.now }
{
    let Some(actions) = held(b[16], &b[17..]) else {
        return false;
    };
    actions.iter().all(action_allowed) && ids_distinct(actions) && !actions.is_empty()
}

// A row by itself: 02 in its table id's top byte, owner 0 to 7, a size, its fields and its actions.
fn row_allowed(b: &[u8; rules::ROW]) -> bool
    ensures { result ≡ (rules.row_allowed (rules.row_of b.now) && rules.unused_zero b.now) }
{
    b[0] == 2 && b[4] <= 7 && size(b) != 0 && fields_allowed(b) && actions_allowed(b)
}

// How many entries a row allows its table.
fn size(b: &[u8; rules::ROW]) -> u64
    ensures size { result ≡ (rules.row_of b.now).size }
    ensures few { result < 2 ^ 16 }
{
    integer(b, 5, 2)
}

// ---- reason 14, on the rows together

// Whether 14 allows the rows: each by itself, no table id repeated, and their sizes together.
pub fn allowed(rows: &[[u8; rules::ROW]]) -> bool
    requires { length rows.now ≤ 8 }
    ensures { result ≡ rules.configuration_allowed rows.now }
{
    rows.iter().all(row_allowed) && ids_distinct(rows) && rows.iter().map(size).sum::<u64>() <= 256
}
