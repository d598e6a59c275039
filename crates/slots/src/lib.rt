// One slot of a key against its field: 17, 18 and 19, each by the field's kind (document 01, "Configuration and entries").
#![tactic(auto)]

ghost use Rattle.std.specs.Prelude.{◌≡◌, ◌&&◌, eqb};
ghost use Rattle.rules.specs.Bytes.{all_zero};
ghost use Rattle.rules.specs.Value.{is_value};
ghost use Rattle.rules.specs.Key.{kind as kind_of, value1, value2, slot_formed, slot_fits, lpm_rule, ternary_rule, range_rule, slot_rule};
ghost use Rattle.numbers.specs.Whole.{whole_of};
ghost use Rattle.rows.specs.Meaning.{field_of};

use buffers::all_zero;
use numbers::Number;
use rows::Field;
use values::{Value, value_at};

// Each check has an arm for each kind, as document 01 writes it.

// The bytes of a slot: a kind and two values.
pub type Slot = [u8; 35];

// The first value of a slot.
fn first(slot: &Slot) -> &Value
    ensures { result.now ≡ value1 slot.now }
{
    value_at(slot, 1)
}

// Its second value.
fn second(slot: &Slot) -> &Value
    ensures { result.now ≡ value2 slot.now }
{
    value_at(slot, 18)
}

// An omitted slot is 35 zero bytes.
fn omitted(slot: &Slot) -> bool
    ensures { result ≡ all_zero slot.now }
{
    slot[0] == 0 && all_zero(slot)
}

// A present slot has its field's kind and a first value.
fn present(kind: u8, slot: &Slot) -> bool
    ensures { result ≡ (eqb (kind_of slot.now) kind && is_value (value1 slot.now)) }
{
    slot[0] == kind && values::formed(first(slot))
}

// 17. A slot's kind is its field's kind or 0, which exact does not allow; the second value is unused for exact and optional.
#[tactic(auto, unfolding(rules::specs::Key::slot_formed))]
pub fn slot_formed(field: Field, slot: &Slot) -> bool
    ensures { result ≡ slot_formed (field_of field) slot.now }
{
    let kind = field.kind;
    let one_value = || present(kind, slot) && all_zero(second(slot));
    let two_values = || present(kind, slot) && values::formed(second(slot));
    match kind {
        // Omitted: a slot may be, no field is (14).
        0 => omitted(slot),
        // Exact: present, with one value.
        1 => one_value(),
        // Lpm: omitted, or a value and a prefix length.
        2 => omitted(slot) || two_values(),
        // Ternary: omitted, or a value and a mask.
        3 => omitted(slot) || two_values(),
        // Range: omitted, or two bounds.
        4 => omitted(slot) || two_values(),
        // Optional: omitted, or one value.
        5 => omitted(slot) || one_value(),
        // Unknown: no field is (14).
        6..=255 => omitted(slot) || two_values(),
    }
}

// 18. Every value but a prefix length is below 2 to the field's width.
#[tactic(auto, unfolding(rules::specs::Key::slot_fits))]
pub fn slot_fits(field: Field, slot: &Slot) -> bool
    ensures { result ≡ slot_fits (field_of field) slot.now }
{
    let fits = |value: &Value| values::fits(value, field.width);
    match slot[0] {
        // Omitted: no value.
        0 => true,
        // Present: by the field's kind.
        1..=255 => match field.kind {
            // Omitted: a slot may be, no field is (14).
            0 => fits(first(slot)),
            // Exact: one value.
            1 => fits(first(slot)),
            // Lpm: the second is a prefix length.
            2 => fits(first(slot)),
            // Ternary: the second is a mask.
            3 => fits(first(slot)) && fits(second(slot)),
            // Range: two bounds.
            4 => fits(first(slot)) && fits(second(slot)),
            // Optional: one value.
            5 => fits(first(slot)),
            // Unknown: no field is (14).
            6..=255 => fits(first(slot)),
        },
    }
}

// A prefix length of 1 to the width, and no bit below the prefix.
fn lpm_rule(width: u8, x: Number, y: Number) -> bool
    ensures { result ≡ lpm_rule width (whole_of x) (whole_of y) }
{
    let w = u64::from(width);
    y.high == 0 && 1 <= y.low && y.low <= w && x.low_zero((w - y.low) as u8)
}

// A mask that is not 0, and no bit outside it.
fn ternary_rule(x: Number, y: Number) -> bool
    ensures { result ≡ ternary_rule (whole_of x) (whole_of y) }
{
    !y.is_zero() && x.within(y)
}

// Bounds in order, and not the whole range.
fn range_rule(width: u8, x: Number, y: Number) -> bool
    ensures { result ≡ range_rule width (whole_of x) (whole_of y) }
{
    x <= y && !(x.is_zero() && y.is_ones(width))
}

// 19. The rules of the kinds.
#[tactic(auto, unfolding(rules::specs::Key::slot_rule))]
pub fn slot_rule(field: Field, slot: &Slot) -> bool
    ensures { result ≡ slot_rule (field_of field) slot.now }
{
    let width = field.width;
    let x = || Number::of_value(first(slot));
    let y = || Number::of_value(second(slot));
    match slot[0] {
        // Omitted: no rule.
        0 => true,
        // Present: by the field's kind.
        1..=255 => match field.kind {
            // Omitted: a slot may be, no field is (14).
            0 => true,
            // Exact: no rule more.
            1 => true,
            // Lpm: a prefix length of 1 to the width, and no bit below the prefix.
            2 => lpm_rule(width, x(), y()),
            // Ternary: a mask that is not 0, and no bit outside it.
            3 => ternary_rule(x(), y()),
            // Range: bounds in order, and not the whole range.
            4 => range_rule(width, x(), y()),
            // Optional: no rule more.
            5 => true,
            // Unknown: no field is (14).
            6..=255 => true,
        },
    }
}
