//! Laws over the definitions, which return nothing.

use gix_url::laws;

/// Calls `laws::law_separation`.
pub fn separation() {
    laws::law_separation();
}

/// Calls `laws::law_closed`.
pub fn closed() {
    laws::law_closed();
}
