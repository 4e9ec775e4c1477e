//! Canonical paths: local locations whose path a closure resolves.

ghost use Rattle.std.specs.Prelude.{◌≡◌, ◌⊎◌, Err, IfErr, IfOk, IsUtf8, MatchOption, MatchResult, None, Ok, Some, string_bytes};
ghost use Rattle.std.specs.Fn.{FnOnceReturnsAt, FnOnceTakesAt};
ghost use Rattle.std.specs.Bool.{MatchBool};
ghost use Rattle.gix_url.specs.HomeReadings.{IsUnresolved};
ghost use Rattle.git_syntax.specs.Location.Scheme.{file};
ghost use Rattle.gix_url.specs.Views.{owned_scheme};

use crate::error::Error;
use crate::location::Url;
use crate::scheme::Scheme;
use bstr::{BString, ByteSlice};
use std::alloc::Global;

impl Url {
    /// Replaces the path by the result of `resolve` for it, if the location is a local one.
    ///
    /// `resolve` is called once, with the path, if the scheme is `File` and the path is text. Its result
    /// becomes the path without a copy. A location of any other scheme is unchanged, and `resolve` is not
    /// called. No other field changes. Allocates nothing, except in `resolve`.
    ///
    /// # Errors
    ///
    /// - [`Error::PathNotUtf8`] if the path of a local location is not text. This is tested first.
    /// - [`Error::Unresolved`] if `resolve` returns `None`.
    ///
    /// The location is unchanged after either.
    ///
    /// ```
    /// /// Gives a local location the path that the file system has for it.
    /// fn resolve<R: Files + AllocGlobal>(rt: &R, url: &mut Url) -> Result<(), Error> {
    ///     url.canonicalize(|path| {
    ///         fs::canonicalize(rt, path)
    ///             .ok()
    ///             .map(|path| path.into_string())
    ///     })
    /// }
    /// ```
    pub fn canonicalize<F: FnOnce(&str) -> Option<String> + Drop>(
        &mut self,
        resolve: F,
    ) -> Result<(), Error>
        requires { self.old.scheme ≡ file → IsUtf8 self.old.path
            → FnOnceTakesAt F.FnOnce resolve self.old.path }
        ensures elsewhere { ¬ (self.old.scheme ≡ file) → (result ≡ Ok tt) × (self.new ≡ self.old) }
        ensures no_text { self.old.scheme ≡ file → ¬ IsUtf8 self.old.path
            → (result ≡ Err Error.PathNotUtf8) × (self.new ≡ self.old) }
        ensures resolved { self.old.scheme ≡ file → IsUtf8 self.old.path → (answer : _)
            × FnOnceReturnsAt F.FnOnce resolve self.old.path answer
            × MatchOption answer ((result ≡ Err Error.Unresolved) × (self.new ≡ self.old))
            (λ text. (result ≡ Ok tt) × (self.new ≡ record self.old { path = string_bytes text })) }
        ensures kept { record self.new { path = self.old.path } ≡ self.old }
        ensures refused { IfErr result (IsUnresolved self.old) }
        ensures unchanged { IfErr result (λ e. self.new ≡ self.old) }
    {
        if !is_file(&self.scheme) {
            return Ok(());
        }
        let Ok(path) = self.path.as_bytes().to_str() else {
            return Err(Error::PathNotUtf8);
        };
        match resolve(path) {
            Some(resolved) => {
                self.path = BString::from(resolved);
                Ok(())
            }
            None => Err(Error::Unresolved),
        }
    }

    /// A copy of a local location with the result of `resolve` as its path; a copy of any other location. The
    /// result is that of [`Url::clone`], and then [`Url::canonicalize`] of the copy. All other fields are those of
    /// the location. Allocates the copy.
    ///
    /// # Errors
    ///
    /// - [`Error::Memory`] if the location can't be copied. `resolve` is not called then.
    /// - [`Error::PathNotUtf8`] and [`Error::Unresolved`] as in `canonicalize`.
    ///
    /// ```
    /// /// The same location by the path that the file system has for it.
    /// fn real<R: Files + AllocGlobal>(rt: &R, url: &Url) -> Result<Url, Error> {
    ///     let alloc = rt.alloc();
    ///     url.canonicalized(alloc, |path| {
    ///         fs::canonicalize(rt, path)
    ///             .ok()
    ///             .map(|path| path.into_string())
    ///     })
    /// }
    /// ```
    pub fn canonicalized<F: FnOnce(&str) -> Option<String> + Drop>(
        &self,
        alloc: Global,
        resolve: F,
    ) -> Result<Url, Error>
        requires { self.now.scheme ≡ file → IsUtf8 self.now.path
            → FnOnceTakesAt F.FnOnce resolve self.now.path }
        ensures elsewhere { ¬ (self.now.scheme ≡ file)
            → MatchResult result (λ v. v ≡ self.now) (λ e. e ≡ Error.Memory) }
        ensures no_text { self.now.scheme ≡ file → ¬ IsUtf8 self.now.path
            → MatchResult result (λ v. ⊥) (λ e. (e ≡ Error.Memory) ⊎ (e ≡ Error.PathNotUtf8)) }
        ensures resolved { self.now.scheme ≡ file → IsUtf8 self.now.path → MatchResult result
            (λ v. (text : _) × FnOnceReturnsAt F.FnOnce resolve self.now.path (Some text)
            × (v ≡ record self.now { path = string_bytes text }))
            (λ e. (e ≡ Error.Memory)
            ⊎ ((e ≡ Error.Unresolved) × FnOnceReturnsAt F.FnOnce resolve self.now.path None)) }
        ensures kept { IfOk result (λ v. record v { path = self.now.path } ≡ self.now) }
        ensures refused { IfErr result (λ e. (e ≡ Error.Memory) ⊎ IsUnresolved self.now e) }
    {
        let mut copy = self.clone(alloc)?;
        copy.canonicalize(resolve)?;
        Ok(copy)
    }
}

/// Whether the scheme is that of local locations.
fn is_file(scheme: &Scheme) -> bool
    ensures { MatchBool result (owned_scheme scheme.now ≡ file) (¬ (owned_scheme scheme.now ≡ file)) }
{
    match scheme {
        Scheme::File => true,
        _ => false,
    }
}
