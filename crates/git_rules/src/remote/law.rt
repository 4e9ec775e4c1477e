//! The laws that the contract of [`Remote::of`](crate::remote::Remote::of) determines the result, and that it
//! agrees with the contract of [`rewrite_push`](crate::rewrite::Rewrites::rewrite_push).

ghost use Rattle.git_rules.specs.RemoteLaws.{OneListOfPushUrls, OneListOfUrls, OnePushUrlIsPushed, OneUrlIsPushed};

/// Rules, a name and the entries of a configuration determine both lists of a remote. If the remote has one URL and
/// no push URL, or one push URL, Git pushes to the text that
/// [`rewrite_push`](crate::rewrite::Rewrites::rewrite_push) returns for it.
pub fn law_one_remote()
    ensures urls { OneListOfUrls }
    ensures push_urls { OneListOfPushUrls }
    ensures one_url { OneUrlIsPushed }
    ensures one_push_url { OnePushUrlIsPushed }
{}
