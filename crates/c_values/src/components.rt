//! The components of the path of a location: numbers, and lengths and bytes in the caller's buffers.

ghost use Rattle.std.specs.Prelude.{◌≡◌, ◌++◌, IfOk, OnOk, length, map, option_map};
ghost use Rattle.bstr.specs.BStr.{bstr_bytes};
ghost use Rattle.gix_url.specs.ComponentViews.{components, pair_bytes};
ghost use Rattle.c_values.specs.Codes.{UnlessMemory};
ghost use Rattle.c_values.specs.Output.{or_nothing};
ghost use Rattle.c_values.specs.Left.{LeavesLengths, LeavesBuffer};
ghost use Rattle.c_values.specs.ComponentNumbers.{ReportsComponents, component_bytes, joined_pair, joined_pairs, lengths_of_pair, pair_lengths, pairs_of, component_numbers};

use crate::buffer::write_both;
use crate::codes::MEMORY;
use gix_url::{PathComponents, QueryText, UrlRef};
use std::alloc::{AllocError, Global};

/// The components of a path: numbers, and lengths in bytes. `gix_url_c_components` reports them.
#[repr(C)]
#[derive(Clone, Copy)]
pub struct ComponentNumbers {
    /// Whether there is a query.
    pub has_query: bool,
    /// Whether there is a fragment.
    pub has_fragment: bool,
    /// The length of the path.
    pub path: usize,
    /// The length of the fragment.
    pub fragment: usize,
    /// The number of pairs of the query: a name and its value.
    pub pairs: usize,
    /// The length of all components together: path, fragment, names and values.
    pub bytes: usize,
}

/// Copies and reports the components of the location.
pub fn part(
    alloc: Global,
    url: &UrlRef<'_>,
    reported: &mut ComponentNumbers,
    buffer: &mut [u8],
    lengths: &mut [usize],
) -> u32
    ensures reported { UnlessMemory result (ReportsComponents url.now reported.new buffer.old buffer.new lengths.old lengths.new result) }
    ensures buffer { LeavesBuffer result buffer.old buffer.new }
    ensures lengths { LeavesBuffer result lengths.old lengths.new }
    ensures numbers { LeavesLengths result reported.old reported.new }
{
    let Ok(parts) = PathComponents::of(alloc, url) else {
        return MEMORY;
    };
    let Ok(bytes) = join_bytes(alloc, &parts) else {
        return MEMORY;
    };
    let Ok(measured) = lengths_of(alloc, pairs(&parts)) else {
        return MEMORY;
    };
    *reported = sizes_of(&parts, bytes.len());
    write_both(bytes.as_slice(), measured.as_slice(), buffer, lengths)
}

/// The names and values of the query; empty without a query.
fn pairs<'a, 'b>(parts: &'b PathComponents<'a>) -> &'b [(QueryText<'a>, QueryText<'a>)]
    ensures { map pair_bytes result.now ≡ pairs_of (components parts.now).query }
{
    match &parts.query {
        None => &[],
        Some(pairs) => pairs.as_slice(),
    }
}

/// The fragment, or an empty one.
fn fragment<'a>(parts: &PathComponents<'a>) -> &'a [u8]
    ensures { result.now ≡ or_nothing (option_map bstr_bytes parts.now.fragment) }
{
    match parts.fragment {
        None => b"",
        Some(fragment) => fragment.as_bytes(),
    }
}

/// The bytes of the path, the fragment, and all names and values.
fn join_bytes(alloc: Global, parts: &PathComponents<'_>) -> Result<Vec<u8>, AllocError>
    ensures { IfOk result (λ bytes. bytes.items ≡ component_bytes (components parts.now)) }
{
    let mut bytes = Vec::from_slice(alloc, parts.path.as_bytes())?;
    bytes.extend_from_slice(fragment(parts))?;
    append_pairs(&mut bytes, pairs(parts))?;
    Ok(bytes)
}

/// Appends each name and its value.
#[tactic(auto, using(crate::proofs::ComponentLemmas::joined_more))]
fn append_pairs(
    bytes: &mut Vec<u8>,
    pairs: &[(QueryText<'_>, QueryText<'_>)],
) -> Result<(), AllocError>
    ensures { OnOk result (bytes.new.items ≡ bytes.old.items ++ joined_pairs (map pair_bytes pairs.now)) }
{
    for pair in pairs {
        append_pair(bytes, pair)?;
    }
    Ok(())
}

/// Appends a name and its value.
fn append_pair(bytes: &mut Vec<u8>, pair: &(QueryText<'_>, QueryText<'_>)) -> Result<(), AllocError>
    ensures { OnOk result (bytes.new.items ≡ bytes.old.items ++ joined_pair (pair_bytes pair.now)) }
{
    bytes.extend_from_slice(pair.0.as_bstr().as_bytes())?;
    bytes.extend_from_slice(pair.1.as_bstr().as_bytes())
}

/// The lengths of names and values, in turn.
#[tactic(auto, using(crate::proofs::ComponentLemmas::lengths_more))]
fn lengths_of(
    alloc: Global,
    pairs: &[(QueryText<'_>, QueryText<'_>)],
) -> Result<Vec<usize>, AllocError>
    ensures { IfOk result (λ lengths. lengths.items ≡ pair_lengths (map pair_bytes pairs.now)) }
{
    let mut lengths = Vec::new(alloc);
    for pair in pairs {
        append_lengths(&mut lengths, pair)?;
    }
    Ok(lengths)
}

/// Appends the lengths of a name and of its value.
fn append_lengths(
    lengths: &mut Vec<usize>,
    pair: &(QueryText<'_>, QueryText<'_>),
) -> Result<(), AllocError>
    ensures { OnOk result (lengths.new.items ≡ lengths.old.items ++ lengths_of_pair (pair_bytes pair.now)) }
{
    let measured = [
        pair.0.as_bstr().as_bytes().len(),
        pair.1.as_bstr().as_bytes().len(),
    ];
    lengths.extend_from_slice(&measured)
}

/// The numbers of the components.
fn sizes_of(parts: &PathComponents<'_>, bytes: usize) -> ComponentNumbers
    requires { bytes ≡ length (component_bytes (components parts.now)) }
    ensures { result ≡ component_numbers (components parts.now) }
{
    ComponentNumbers {
        has_query: parts.query.is_some(),
        has_fragment: parts.fragment.is_some(),
        path: parts.path.as_bytes().len(),
        fragment: fragment(parts).len(),
        pairs: pairs(parts).len(),
        bytes,
    }
}
