//! A line on standard error each second, where that is a terminal.

use slub_outcomes::progress::Progress;
use std::rt::Clock;
use std::time::{Duration, Instant};

/// Shows how far a run is, each second. It shows nothing where standard error is no terminal, or no time can be had.
#[derive(Drop)]
pub struct Shown<'a, R: Clock + Eprint> {
    rt: &'a R,
    /// When a line is due, where lines are shown.
    due: Option<Instant>,
}

impl<'a, R: Clock + Eprint> Shown<'a, R> {
    /// Shows lines if it is asked to.
    pub fn of(rt: &'a R, is_asked: bool) -> Shown<'a, R> {
        let due = if is_asked { second_from_now(rt) } else { None };
        Shown { rt, due }
    }
}

/// The time a second from now.
fn second_from_now(rt: &impl Clock) -> Option<Instant> {
    let Ok(now) = Instant::now(rt) else {
        return None;
    };
    now.checked_add(Duration::from_secs(1))
}

impl<R: Clock + Eprint> Progress for Shown<'_, R> {
    fn done(&mut self, seeds: u32, all: u32) {
        let Some(due) = self.due else {
            return;
        };
        let Ok(now) = Instant::now(self.rt) else {
            return;
        };
        if now >= due {
            self.due = second_from_now(self.rt);
            let _ = eprintln!(self.rt; "slub: {seeds} of {all} seeds");
        }
    }
}
