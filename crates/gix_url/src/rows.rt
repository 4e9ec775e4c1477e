//! Examples of the definition of errors.

ghost use Rattle.gix_url.specs.Examples.OtherRows.{KeptRows};

/// The texts that errors keep.
fn law_others()
    ensures kept { KeptRows }
{}
