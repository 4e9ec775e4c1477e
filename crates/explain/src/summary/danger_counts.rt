//! The number of lines with each danger.

use crate::summary::bump;
use git_audit::danger::Danger;

/// The dangers in their order.
pub(super) const DANGERS: [Danger; 10] = [
    Danger::Command,
    Danger::OptionLikeUser,
    Danger::OptionLikeHost,
    Danger::OptionLikePath,
    Danger::Password,
    Danger::Token,
    Danger::HostCharacter,
    Danger::LineEnd,
    Danger::OtherHost,
    Danger::MisreadHost,
];

/// How many lines have each danger.
#[derive(Clone, Copy)]
pub(super) struct DangerCounts {
    command: u64,
    option_like_user: u64,
    option_like_host: u64,
    option_like_path: u64,
    password: u64,
    token: u64,
    host_character: u64,
    line_end: u64,
    other_host: u64,
    misread_host: u64,
}

impl DangerCounts {
    /// No line.
    pub(super) fn none() -> DangerCounts {
        DangerCounts {
            command: 0,
            option_like_user: 0,
            option_like_host: 0,
            option_like_path: 0,
            password: 0,
            token: 0,
            host_character: 0,
            line_end: 0,
            other_host: 0,
            misread_host: 0,
        }
    }

    /// Counts a line with these dangers.
    pub(super) fn add(&mut self, found: &[Danger]) {
        for danger in found {
            bump(self.of_mut(*danger));
        }
    }

    /// Whether no line has a danger.
    pub(super) fn is_empty(&self) -> bool {
        DANGERS.iter().all(|danger| self.of(*danger) == 0)
    }

    /// How many lines have this danger.
    pub(super) fn of(&self, danger: Danger) -> u64 {
        match danger {
            Danger::Command => self.command,
            Danger::OptionLikeUser => self.option_like_user,
            Danger::OptionLikeHost => self.option_like_host,
            Danger::OptionLikePath => self.option_like_path,
            Danger::Password => self.password,
            Danger::Token => self.token,
            Danger::HostCharacter => self.host_character,
            Danger::LineEnd => self.line_end,
            Danger::OtherHost => self.other_host,
            Danger::MisreadHost => self.misread_host,
        }
    }

    /// The count of this danger, for changes.
    fn of_mut(&mut self, danger: Danger) -> &mut u64 {
        match danger {
            Danger::Command => &mut self.command,
            Danger::OptionLikeUser => &mut self.option_like_user,
            Danger::OptionLikeHost => &mut self.option_like_host,
            Danger::OptionLikePath => &mut self.option_like_path,
            Danger::Password => &mut self.password,
            Danger::Token => &mut self.token,
            Danger::HostCharacter => &mut self.host_character,
            Danger::LineEnd => &mut self.line_end,
            Danger::OtherHost => &mut self.other_host,
            Danger::MisreadHost => &mut self.misread_host,
        }
    }
}
