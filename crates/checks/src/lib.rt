// Checks of a table, a key and a whole entry against a row: reasons 15 to 19, in their order (document 01, "The maker of an update").
#![tactic(auto)]

ghost use Rattle.std.specs.Prelude.{◌≡◌, true, false, List, ℕ, ◌+◌, ◌*◌, ◌≤◌, ◌<◌, Some, IfOk, MatchResult, IfSome, is_some, length, drop};
ghost use Rattle.std.specs.Option.{option_copied};
ghost use Rattle.rules.specs.Bytes.{between, some_of, part, parts};
ghost use Rattle.rules.specs.Named.{reason_of};
ghost use Rattle.rules.specs.Reason.{first};
ghost use Rattle.rules.specs.Row.{table_order};
ghost use Rattle.rules.specs.Value.{is_value, fits};
ghost use Rattle.rules.specs.Key.{slot_formed, slot_fits, slot_rule, pairwise, pairwise_then_zeros, priority_rule, key_order};
ghost use Rattle.rules.specs.Entry.{has_action, widths_of};
ghost use Rattle.rules.specs.Update.{entry_order};
ghost use Rattle.rows.specs.Meaning.{action_of, row_of, row_found};
ghost use Rattle.checks.specs.Orders.{whole_order, ruled};

use buffers::all_zero;
use numbers::integer;
use rows::{Action, Field, Row};
use rules::Reason;
use slots::{Slot, slot_fits, slot_formed, slot_rule};
use values::Value;

// A key without its table: priority 4, slots 140.
pub type Key = [u8; 144];

// The bytes of an entry: a key, an action, and four parameter values.
pub type Entry = [u8; rules::ENTRY];

// The type of an update that deletes.
const DELETE: u8 = 3;

// 15 and 16 of an update or a READ, by the row of its table, if the table is known; else the row.
#[tactic(auto, unfolding(rules::specs::Reason::first))]
pub fn table_reason(row: Option<&Row>, role: u8) -> Result<&Row, Reason>
    ensures reason { reason_of result ≡ first (table_order (is_some row.entry) (row_found row.entry) role) }
    ensures row { IfOk result (λ r. option_copied row.entry ≡ Some r.now) }
{
    let Some(row) = row else {
        return Err(Reason::NoSuchTable);
    };
    if !row.may_write(role) {
        return Err(Reason::NotTheRoles);
    }
    Ok(row)
}

// The reason where a test failed.
fn check(passes: bool, reason: Reason) -> Result<(), Reason>
    ensures { MatchResult result (λ _. passes ≡ true) (λ r. (passes ≡ false) × (r ≡ reason)) }
{
    if passes { Ok(()) } else { Err(reason) }
}

// ---- the parts of a key and an entry

// Four parts of N bytes each, where they lie.
fn four<const N: usize>(b: &[u8], at: usize) -> &[[u8; N]; 4]
    requires { (0 < N) × (at + N * 4 ≤ length b.now) }
    ensures { result.now ≡ parts 4 N (drop at b.now) }
{
    let (all, _) = b[at..].as_chunks();
    all.first_chunk().unwrap()
}

// ---- a key: its four slots, and its priority

// 17 of slots: each is formed by its field, and those past the fields are zeros.
fn slots_formed(row: &Row, slots: &[Slot; 4]) -> bool
    ensures { result ≡ pairwise_then_zeros slot_formed (row_of row.now).fields slots.now }
{
    let fields = row.fields();
    let formed = |(field, slot): (&Field, &Slot)| slot_formed(*field, slot);
    fields.iter().zip(slots).all(formed) && all_zero(slots[fields.len()..].as_flattened())
}

// 18 of slots: the values of each fit its field. This and the next are the library's walk over pairs; one of our own with a closure
// would need a clause on the closure, and its callers as many lines.
fn slots_fit(row: &Row, slots: &[Slot; 4]) -> bool
    ensures { result ≡ pairwise slot_fits (row_of row.now).fields slots.now }
{
    row.fields()
        .iter()
        .zip(slots)
        .all(|(field, slot)| slot_fits(*field, slot))
}

// 19 of slots: each keeps the rule of its field's kind.
fn slots_ruled(row: &Row, slots: &[Slot; 4]) -> bool
    ensures { result ≡ pairwise slot_rule (row_of row.now).fields slots.now }
{
    row.fields()
        .iter()
        .zip(slots)
        .all(|(field, slot)| slot_rule(*field, slot))
}

// Whether a field of this kind asks for a priority. An arm for each kind, as document 01 writes it.
fn needs_priority(kind: u8) -> bool
    ensures { result ≡ between 3 5 kind }
{
    match kind {
        // Omitted: a slot may be, no field is (14).
        0 => false,
        // Exact.
        1 => false,
        // Lpm.
        2 => false,
        // Ternary.
        3 => true,
        // Range.
        4 => true,
        // Optional.
        5 => true,
        // Unknown: no field is (14).
        6..=255 => false,
    }
}

// Whether a field is ternary, range or optional.
fn has_priority(row: &Row) -> bool
    ensures { result ≡ some_of (λ f. between 3 5 f.kind) (row_of row.now).fields }
{
    row.fields().iter().any(|field| needs_priority(field.kind))
}

// Priority is 1 to 2,147,483,647 where a field is ternary, range or optional, else 0.
#[tactic(auto, unfolding(rules::specs::Key::priority_rule))]
fn priority_rule(row: &Row, priority: u64) -> bool
    ensures { result ≡ priority_rule (row_of row.now).fields priority }
{
    if has_priority(row) {
        1 <= priority && priority <= 2147483647
    } else {
        priority == 0
    }
}

// 19 of a key, with its priority.
fn key_rules(row: &Row, priority: u64, slots: &[Slot; 4]) -> bool
    ensures { result ≡ ruled (row_of row.now).fields slots.now priority }
{
    slots_ruled(row, slots) && priority_rule(row, priority)
}

// 17, 18 and 19 of a key. Here it is without its table.
pub fn key_reason(row: &Row, key: &Key) -> Result<(), Reason>
    ensures { (k : List ℕ) → part 4 144 k ≡ key.now → reason_of result ≡ first (key_order (row_of row.now) k) }
{
    let slots = four(key, 4);
    check(slots_formed(row, slots), Reason::BadForm)?;
    check(slots_fit(row, slots), Reason::TooWide)?;
    check(
        key_rules(row, integer(key, 0, 4), slots),
        Reason::RuleBroken,
    )
}

// ---- the action and parameters of an entry

// The row's action of an id.
fn action_at(row: &Row, id: u64) -> Option<&Action>
    ensures known { is_some result ≡ has_action id (row_of row.now).actions }
    ensures widths { IfSome result (λ a. (action_of a.now).widths ≡ widths_of id (row_of row.now).actions) }
{
    row.actions().iter().find(|action| action.id() == id)
}

// 17 of parameters: as many are values as their action has, and those past them are zeros.
fn parameters_formed(widths: &[u8], parameters: &[Value; 4]) -> bool
    requires { length widths.now ≤ 4 }
    ensures { result ≡ pairwise_then_zeros (λ width. is_value) widths.now parameters.now }
{
    let formed = |(_, value): (&u8, &Value)| values::formed(value);
    widths.iter().zip(parameters).all(formed) && all_zero(parameters[widths.len()..].as_flattened())
}

// 18 of parameters: each fits its width.
fn parameters_fit(widths: &[u8], parameters: &[Value; 4]) -> bool
    requires { length widths.now ≤ 4 }
    ensures { result ≡ pairwise fits widths.now parameters.now }
{
    widths
        .iter()
        .zip(parameters)
        .all(|(width, value)| values::fits(value, *width))
}

// ---- an entry

// 17, 18 and 19 of a whole entry.
fn whole_reason(row: &Row, entry: &Entry) -> Result<(), Reason>
    ensures { reason_of result ≡ first (whole_order (row_of row.now) entry.now) }
{
    let slots = four(entry, 8);
    let parameters = four(entry, 152);
    let action = action_at(row, integer(entry, rules::KEY, 4)).ok_or(Reason::BadForm)?;
    let widths = action.widths();
    check(slots_formed(row, slots), Reason::BadForm)?;
    check(parameters_formed(widths, parameters), Reason::BadForm)?;
    check(slots_fit(row, slots), Reason::TooWide)?;
    check(parameters_fit(widths, parameters), Reason::TooWide)?;
    check(
        key_rules(row, integer(entry, 4, 4), slots),
        Reason::RuleBroken,
    )
}

// 17, 18 and 19 of an update's entry, by its type. Of a DELETE's only the key is looked at. The type is a number, since the clause speaks
// of any.
pub fn entry_reason(row: &Row, kind: u8, entry: &Entry) -> Result<(), Reason>
    ensures { reason_of result ≡ first (entry_order (row_of row.now) kind entry.now) }
{
    if kind == DELETE {
        return key_reason(row, entry[4..].first_chunk().unwrap());
    }
    whole_reason(row, entry)
}
