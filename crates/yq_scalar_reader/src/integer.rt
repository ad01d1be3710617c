//! The numbers that ints of the core schema spell.
ghost use Rattle.std.specs.Prelude.{◌≡◌, ◌≤◌, ℤ, true, Some, IfSome};
ghost use Rattle.yq_core.{specs.Numbers.is_i64, specs.Schema.IsIntOf};
ghost use Rattle.yq_core.specs.SchemaReading as spec;

use yq_core::{are_digits, has_base};

/// The number that the text spells, if it is an int of the core schema (YAML 1.2.2, section 10.3.2)
/// and its number is an `i64`.
pub fn int_value(text: &str) -> Option<i64>
    ensures exact { result ≡ spec.int_value text.now }
    ensures found { IfSome result (λ n. IsIntOf text.now n) }
    ensures only { (n : ℤ) → IsIntOf text.now n → is_i64 n ≡ true → result ≡ Some n }
{
    number_of(text)
}

#[tactic(auto, unfolding(yq_core::specs::SchemaReading::int_number))]
fn number_of(text: &str) -> Option<i64>
    ensures { result ≡ spec.int_value text.now }
{
    if has_base(b'o', text.as_bytes()) {
        based_value(8, text.split_at(2).1)
    } else if has_base(b'x', text.as_bytes()) {
        based_value(16, text.split_at(2).1)
    } else {
        decimal_value(text)
    }
}

/// The number that the digits of an octal or hexadecimal int spell.
fn based_value(base: u32, digits: &str) -> Option<i64>
    requires low { 2 ≤ base }
    requires high { base ≤ 36 }
    ensures { result ≡ spec.based_value base digits.now }
{
    if are_digits(base, digits.as_bytes()) {
        i64::from_str_radix(digits, base).ok()
    } else {
        None
    }
}

/// The number that a sign, if there is one, and decimal digits spell.
fn decimal_value(text: &str) -> Option<i64>
    ensures { result ≡ spec.decimal_value text.now }
{
    i64::from_str_radix(text, 10).ok()
}
