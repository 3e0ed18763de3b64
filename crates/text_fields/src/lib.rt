//! Fields of text: decimal and hexadecimal numbers, printed and read, and a text split into its
//! fields.
//!
//! Read in this order: `print`, `pairs` and `numbers` (its quick parts), `split`, `read`, `value`,
//! `first`, `laws` (printing and reading are each other's inverse).
#![tactic(auto)]

pub mod first;
pub mod laws;
pub mod numbers;
mod pairs;
pub mod print;
pub mod read;
pub mod split;
pub mod value;

pub use first::{first_decimal, first_hex, first_optional_hex};
pub use numbers::push_number;
pub use print::{push_ascii, push_decimal, push_hex, push_small_number};
pub use read::{
    FieldError, read_decimal, read_hex, read_optional_decimal, read_optional_hex,
    read_signed_decimal,
};
pub use split::{field_count, split_field};
pub use value::read_value;
