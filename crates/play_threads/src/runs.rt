//! How long a worker plays its lines in one turn.
ghost use Rattle.std.specs.Prelude.{◌≡◌, true};
ghost use Rattle.play_threads.specs.Turns.{is_left_to_part, is_client_wait, is_played_on, picks_again};

use crate::pickers::LinePicker;
use egl_calls::{EglKind, GlKind, Kind, Reply, is_waiting};
use shared_driver::Runner;
use trace_reader::Line;
use trace_session::is_await;

fn is_left_to_part(kind: Kind) -> bool
    ensures { result ≡ is_left_to_part kind }
{
    matches!(kind, Kind::Gl(GlKind::Clear | GlKind::ReadPixels))
}

fn is_client_wait(kind: Kind) -> bool
    ensures { result ≡ is_client_wait kind }
{
    matches!(kind, Kind::Egl(EglKind::ClientWaitSync))
}

/// Whether a turn goes on to a line. Where its entries have freed a thread that sleeps, it goes on only to a line that is likely to wait, since its own thread then lies down in the same turn. A clear or a read of pixels is left to the thread's private part, which plays it while others have their turns.
fn is_played_on(line: &Line, freed: bool) -> bool
    ensures { result ≡ is_played_on line.now.call.kind freed }
{
    let kind = line.call.kind();
    !is_left_to_part(kind) && (is_client_wait(kind) || is_await(kind) || !freed)
}

impl<'a> Runner for LinePicker<'a> {
    ghost told = { λ p r q. q ≡ record p { answered = true } };

    ghost wants = { λ p r freed. picks_again p r freed };

    // A thread that waits now, or is at its end, lies down or stops in the same turn.
    fn again(&self, reply: &Reply, freed: bool) -> bool {
        if !self.runs {
            return false;
        }
        if is_waiting(reply.outcome) {
            return true;
        }
        match self.session.line_behind(self.thread) {
            Some(line) => is_played_on(line, freed),
            None => true,
        }
    }

    // The reply stands in the journal as well, where the next look finds it.
    fn tell(&mut self, _reply: Reply) {
        self.answered = true;
    }
}
