//! Laws of the library, over the definitions of its contracts alone.
//!
//! The functions have no effect: the clauses of each are laws. (`law_value` reads the fields of a location.)
//! Laws from other modules are in the modules that they are about. Users combine them with the contracts of
//! `parse`, of the writer, of the settled test and of `lines`, which name the same definitions.

ghost use Rattle.std.specs.Cmp.{IsTotalOrder};
ghost use Rattle.git_laws.specs.AnswerLaws.{LineForLine, OneLine, OneLineSplit};
ghost use Rattle.git_laws.specs.ComponentLaws.{EqualComponents, OneComponents};
ghost use Rattle.git_reads.specs.Git.{OneGitReading};
ghost use Rattle.git_laws.specs.GitClass.{ReadAlike};
ghost use Rattle.git_reads.specs.Credentials.{OneCredentialReading};
ghost use Rattle.git_laws.specs.GitWeb.{OneUriReading};
ghost use Rattle.git_laws.specs.Laws.{Apart, Closed, EqualIsSame, Exact, ExactByFields, FedAlike, KeepsEarlier, LocationsFedApart, SchemesFedApart, ReadAgain, SameComponents, SettledAgain, SpellingLast, TextDecides, TiedIsEqual, Unchanged, Unique, Writable};
ghost use Rattle.git_laws.specs.Order.{fed_location, fed_scheme, location_cmp, location_eq, scheme_cmp, scheme_eq};
ghost use Rattle.git_laws.specs.Records.{KeepsMeaning, MigratedOnce, Migrates, RespelledOnce};
ghost use Rattle.git_laws.specs.Safeguards.{SettledWithoutPassword, SettledWithoutSpelling, WebSettledWithoutSpelling};

/// A text spells at most one location, and the text of a settled location is read as that location's fields.
///
/// - `unique`: no bytes spell two locations, the retained spelling included. So `parse` returns the only
///   location of its input.
/// - `settled_again`: the text of a settled location spells a location with the same public fields, which is
///   settled and has that text. So programs that rewrite remotes read back the fields that they wrote. (The
///   premise `IsValue` holds of each `Url`: `law_value`.) Git may read other fields in that text.
/// - `read_again`: any reader that implements the grammar reads that location again in the text.
/// - `text_decides`: two settled locations whose texts are equal have equal public fields. So credential
///   matchers may compare texts.
/// - `components`: the location that is read from the text of a settled location of HTTP has the same path,
///   query and fragment.
/// - `before`: bytes that spelled a location before the scp form accepted `user@[address]:path` still spell it,
///   and bytes without that form spell nothing else. Stored texts are read as before.
///
/// A law is a call with an empty body. A proof cites it after the call:
///
/// ```
/// /// Whether two remotes are written alike, in texts that all readers read alike. Then they have the same public
/// /// fields.
/// fn are_alike(alloc: Global, one: &Url, other: &Url) -> Result<bool, Error>
///     ensures { IfOk result (λ alike. alike ≡ true → fields one.now ≡ fields other.now) }
/// {
///     if !one.is_unambiguous() || !other.is_unambiguous() {
///         return Ok(false);
///     }
///     law_value(one);
///     law_value(other);
///     law_separation();
///     let text = one.to_bstring(alloc)?;
///     let other_text = other.to_bstring(alloc)?;
///     Ok(text.as_bytes() == other_text.as_bytes())
/// }
/// ```
pub fn law_separation()
    ensures unique { Unique }
    ensures settled_again { SettledAgain }
    ensures read_again { ReadAgain }
    ensures text_decides { TextDecides }
    ensures components { SameComponents }
    ensures before { KeepsEarlier }
{}

/// Legacy records, whose spelling is their path, denote the same bytes after migration.
///
/// - `respelled`: each path has one new spelling, in which its escapes are kept and every other byte is
///   written as in a path.
/// - `keeps_meaning`: a path and its new spelling decode to the same bytes, so the new spelling belongs to the
///   decoded path. Migration loses nothing.
/// - `migrates`: a legacy record represents the location with its path decoded, and with that new spelling;
///   every other record represents the location with its own fields.
/// - `once`: a migrated location is unchanged when it is stored and restored again.
pub fn law_stored()
    ensures respelled { RespelledOnce }
    ensures keeps_meaning { KeepsMeaning }
    ensures migrates { Migrates }
    ensures once { MigratedOnce }
{}

/// Locations that were read are settled, with three exceptions, and the settled class is exact: for local
/// files, HTTP, `ext` and remote helpers.
///
/// - `closed`: a location of these kinds is settled if any bytes spell it, with three exceptions: a host of a
///   file URL with `:` and `%`, a host of HTTP with `%` and a `:` at its end (both only if it doesn't begin
///   with `[`), and a location of HTTP whose text is too long to be read again. A program that only reads
///   locations gets no other unsettled one.
/// - `apart`: no exception is settled, so a location that was read is one or the other.
/// - `exact`: such a location is settled exactly if its text is read as a location with the same public
///   fields and the same text, provided that its spelling isn't its path. So the class omits none of them.
/// - `unchanged`: a location that bytes spell as a remote helper or a local path is settled, and its text is
///   those bytes. Programs that read and write lists of remotes keep such lines to the byte. (A URL of the
///   scheme `ext` is settled too, but is written after `ext::`.)
/// - `exact_by_fields`: no bytes spell a location with the public fields of an unsettled remote helper, `ext`
///   location or local path.
/// - `writable`: for every kind, a spelled location has a text, and its spelling isn't its path, so its record
///   isn't read as a legacy one. A location that was read and stored is restored unchanged.
pub fn law_closed()
    ensures closed { Closed }
    ensures apart { Apart }
    ensures exact { Exact }
    ensures unchanged { Unchanged }
    ensures exact_by_fields { ExactByFields }
    ensures writable { Writable }
{}

/// Equality, order and hash of locations agree.
///
/// - `same`: two locations are equal exactly if they are one value, the retained spelling included. So a fact
///   about one holds for the other: matchers and caches need only `==`.
/// - `tied`: the order returns `Equal` exactly for equal locations. So a sorted list and a `BTreeMap`
///   distinguish the same locations as `==`.
/// - `total`: the order is total: one of two locations comes first, or they are equal.
/// - `hashed`: equal locations feed a hasher alike. So a `HashMap` finds the same locations as `==`.
/// - `hashed_apart`: no others do. No field is left out, so a good hasher distinguishes any two locations.
///   (The premise `IsValue` holds of each `Url`: `law_value`.)
/// - `spelling_last`: the public fields decide the order, and the retained spelling decides only if they are
///   all equal. So locations with equal public fields are adjacent in a sorted list.
///
/// Equality doesn't decide whether two locations name one repository: default ports, letter case in paths and
/// different texts of one location are not normalized.
pub fn law_order()
    ensures same { EqualIsSame location_eq }
    ensures tied { TiedIsEqual location_eq location_cmp }
    ensures total { IsTotalOrder location_cmp }
    ensures hashed { FedAlike location_eq fed_location }
    ensures hashed_apart { LocationsFedApart }
    ensures spelling_last { SpellingLast }
{}

/// Equality, order and hash of schemes agree: each clause states for schemes the fact that the clause of this
/// name in [`law_order`] states for locations. A scheme is compared as the value that it represents.
pub fn law_scheme_order()
    ensures same { EqualIsSame scheme_eq }
    ensures tied { TiedIsEqual scheme_eq scheme_cmp }
    ensures total { IsTotalOrder scheme_cmp }
    ensures hashed { FedAlike scheme_eq fed_scheme }
    ensures hashed_apart { SchemesFedApart }
{}

/// The answer to each line is one line.
///
/// - `one_line`: the answer to a line without byte 10 is a text without it, and byte 10. The text of a settled
///   location has no byte 10 either, even if its path or its user has one: such a byte is written as an
///   escape, or the location isn't settled.
/// - `line_for_line`: so the output of [`run`](git_location::lines::run) splits at byte 10 into as many lines as
///   its input, each the answer to the line at the same index. Answers can be matched to lines by position.
/// - `one_split`: a text has only one split into lines, so every program that splits it gets these lines.
pub fn law_lines()
    ensures one_line { OneLine }
    ensures line_for_line { LineForLine }
    ensures one_split { OneLineSplit }
{}

/// The components of a location's path are determined by the location, and equality distinguishes them.
///
/// - `one`: each location has exactly one path, query and fragment by the definition. So the result of
///   `path_query_fragment` depends only on the location.
/// - `equal`: components that compare equal are one value, and one value compares equal to itself. So two
///   locations with equal components have the same bytes in path, query and fragment.
pub fn law_components()
    ensures one { OneComponents }
    ensures equal { EqualComponents }
{}

/// A settled location stays settled without its password or its spelling, except in the cases below.
///
/// - `password`: without its password it is settled exactly if it has none, or its user isn't empty. An empty
///   user is written only before a password, so `http://:secret@host/` isn't settled without it. Hiding
///   passwords from logs and from other programs keeps all other locations settled.
/// - `web_spelling`: a settled location of HTTP is settled without its spelling. A program that keeps only its
///   public fields, and builds a location from them by [`Url::from_parts`](gix_url::Url::from_parts), gets a
///   settled one again.
/// - `spelling`: the same holds for each kind except the URLs of Secure Shell, of Git and of other schemes. One
///   of these is settled without its spelling exactly if its path has neither `%` nor white space, and, if it
///   has no host, the text of its public fields is short enough.
pub fn law_stripped()
    ensures password { SettledWithoutPassword }
    ensures web_spelling { WebSettledWithoutSpelling }
    ensures spelling { SettledWithoutSpelling }
{}

/// In the text of a location that `agrees_with_git` accepts, Git reads the location's own fields.
///
/// - `alike`: a location that [`Url::agrees_with_git`](gix_url::Url::agrees_with_git) accepts has a text, and
///   Git reads in it the location's own scheme, user, host, port and path; with `git://`, the host without
///   brackets around it. So if credentials are chosen by the host that is read here, and the text is then
///   passed to Git, Git reads that host. Over HTTP there are two readers. Git's credential code, which asks
///   helpers for a password, reads the location's own scheme, user, password, host and port, and its path
///   without the slashes around it. A reader of URIs, which opens the connection, reads components that
///   decode to the location's own fields, without a fragment, and normalizes nothing. So a helper is asked
///   for the host to which Git connects.
/// - `one`: by the definition, Git has at most one reading of any text, so it reads nothing else in that one.
/// - `one_credential`: Git's credential code has at most one reading of any text.
/// - `one_uri`: a reader of URIs has at most one reading of any text.
///
/// The law is about the definitions of these readers. That Git and libcurl follow them is tested, not proved.
pub fn law_git()
    ensures alike { ReadAlike }
    ensures one { OneGitReading }
    ensures one_credential { OneCredentialReading }
    ensures one_uri { OneUriReading }
{}
