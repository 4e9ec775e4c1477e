//! Matches by a table of numbers and variants, in both directions. The table is written once, in a macro that passes
//! it to one of these.

/// The number of a variant.
macro_rules! number_of {
    ($it:expr; $($number:literal => $variant:path,)*) => {
        match $it {
            $($variant => $number,)*
        }
    };
}

/// The variant with a number, if there is one.
macro_rules! numbered {
    ($it:expr; $($number:literal => $variant:path,)*) => {
        match $it {
            $($number => Some($variant),)*
            _ => None,
        }
    };
}

pub(crate) use number_of;
pub(crate) use numbered;
