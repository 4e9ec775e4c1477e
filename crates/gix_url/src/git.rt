//! The classes of locations in whose texts Git, or every reader of a family, reads the same fields.

ghost use Rattle.std.specs.Prelude.{◌↔◌, IsTrue, IsNone, IfSome};
ghost use Rattle.git_class.specs.GitClass.{AgreesWithGit};
ghost use Rattle.git_location.specs.Settled.{IsSettled, IsWeb};
ghost use Rattle.git_class.specs.WebClass.{AgreesOverWeb};
ghost use Rattle.git_class.specs.WebConditions.{IsFirstUnmet};
ghost use Rattle.git_readers.specs.Conditions as conditions;
ghost use Rattle.git_readers.specs.Conditions.{IsUnambiguous};

use crate::location::Url;
use git_class::agreement::agrees_with_git;
use git_class::web_conditions::{WebCondition, unmet_web_condition};
use git_readers::unambiguous::{Condition, is_unambiguous, unmet_condition};

impl Url {
    /// Whether Git is known to read this very place in the text of the location: the same scheme, user, host,
    /// port and path; of `git://` the host without the brackets around it. The host of `git://[::1]/p` is
    /// `[::1]` here, and Git connects to `::1`. Allocates nothing.
    ///
    /// Git passes a text of HTTP to curl, and asks its credential code for a password. For such a location,
    /// `true` means that this code reads in the text the location's own scheme, user, password, host with port,
    /// and path, the path without the slashes around it, and that the text is a URI of RFC 3986 in the normal
    /// form, whose components are the location's own (`ReadsOwnOverWeb`).
    ///
    /// Pass Git the text that [`Url::to_bstring`] writes, and not another one that was read as the location:
    /// for `ssh://@h/p`, which is written as `ssh://h/p`, the result is `true`, but Git would pass Secure Shell
    /// the word `@h`, which it refuses.
    ///
    /// `docs/GIT.md` lists the conditions, and Git's readings of texts that don't meet them. The result is `false`
    /// for an unsettled location, for one that Git passes to another remote helper than that of HTTP, and for some
    /// in which Git does read the same place. The definitions, such as `GitReads`, are a model of Git: that
    /// Git 2.39.5 on Linux follows them is tested, not proved.
    ///
    /// ```
    /// /// The text for Git, if Git reads the same place in it.
    /// fn for_git(alloc: Global, url: &Url) -> Result<Option<BString>, Error> {
    ///     if !url.agrees_with_git() {
    ///         return Ok(None); // `ssh://u:p@h/p`, in which Git reads the user `u:p`
    ///     }
    ///     Ok(Some(url.to_bstring(alloc)?))
    /// }
    /// ```
    pub fn agrees_with_git(&self) -> bool
        ensures { IsTrue result ↔ AgreesWithGit self.now }
    {
        agrees_with_git(&self.as_ref())
    }

    /// The first condition that this location of HTTP doesn't meet: of those by which [`Url::agrees_with_git`]
    /// accepts such a location, in the order of [`WebCondition`]. For HTTP, the result is `None` exactly if
    /// `agrees_with_git` returns `true`. For a location of another scheme it is always `None`. Allocates
    /// nothing.
    ///
    /// ```
    /// /// Whether the path is refused for a segment `.` or `..`, which other readers remove.
    /// fn is_refused_for_dots(url: &Url) -> bool {
    ///     url.unmet_web_condition() == Some(WebCondition::NoDotSegment) // of `http://h/a/../b`
    /// }
    /// ```
    pub fn unmet_web_condition(&self) -> Option<WebCondition>
        ensures met { IsWeb self.now → (IsNone result ↔ AgreesOverWeb self.now) }
        ensures other { ¬ IsWeb self.now → IsNone result }
        ensures first { IfSome result (λ condition. IsFirstUnmet condition self.now) }
    {
        unmet_web_condition(&self.as_ref())
    }

    /// Whether every reader of a family is known to find the same fields in the text of the location.
    /// Allocates nothing.
    ///
    /// If the result is `true`, the location is settled, Git agrees as well, and every reader of a family (`LeavesPlain`) finds the
    /// location's own scheme, user, password, host, port and path in its text
    /// ([`law_unambiguous`](crate::laws::law_unambiguous)): whichever `@` or `:` it cuts at, whether `?`, `#`,
    /// `;` or `\` end its authority, and whatever it decodes. Pass on the text that [`Url::to_bstring`] writes.
    /// The result is `false` for many texts that most readers read alike. `docs/READERS.md` has the conditions,
    /// and the hosts that readers in use find in texts that don't meet them.
    ///
    /// ```
    /// /// Whether what connects to a remote finds the host that was checked.
    /// fn may_pass_on(url: &Url) -> bool {
    ///     url.is_unambiguous() // not `ssh://::1:22/p`, where some read the port 22
    /// }
    /// ```
    pub fn is_unambiguous(&self) -> bool
        ensures decided { IsTrue result ↔ IsUnambiguous self.now }
        ensures settled { IsTrue result → IsSettled self.now }
    {
        is_unambiguous(&self.as_ref())
    }

    /// The first condition that the location doesn't meet, of those by which [`Url::is_unambiguous`] accepts
    /// one, in the order of [`Condition`], or `None` if it meets all of them. Allocates nothing.
    ///
    /// ```
    /// /// Whether readers may find another host in the text of the location.
    /// fn may_host_differ(url: &Url) -> bool {
    ///     url.unmet_condition() == Some(Condition::Host) // of `https://a_b/p`
    /// }
    /// ```
    pub fn unmet_condition(&self) -> Option<Condition>
        ensures met { IsNone result ↔ IsUnambiguous self.now }
        ensures first { IfSome result (λ condition. conditions.IsFirstUnmet condition self.now) }
    {
        unmet_condition(&self.as_ref())
    }
}
