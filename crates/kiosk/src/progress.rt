// How far a long conversion is, told on standard error: at most one line a second, and none in the first.
use std::time::Instant;

// A second, in milliseconds.
const SECOND: u128 = 1_000;

#[derive(Drop)]
pub(crate) struct Progress {
    // Nothing where the clock cannot be read: then nothing is told.
    start: Option<Instant>,
    // When the next line may be told, in milliseconds from the start.
    next: u128,
    rows: usize,
}

impl Progress {
    pub(crate) fn begin(rt: &HostRuntime, rows: usize) -> Progress {
        Progress {
            start: Instant::now(rt).ok(),
            next: SECOND,
            rows,
        }
    }

    // Whether it is time for a line. The next one is due a second later.
    fn is_due(&mut self, rt: &HostRuntime) -> bool {
        let Some(spent) = self.start.and_then(|start| start.elapsed(rt).ok()) else {
            return false;
        };
        let now = spent.as_millis();
        let due = now >= self.next;
        if due {
            self.next = now.saturating_add(SECOND);
        }
        due
    }

    // Tells how many rows are done, if it is time, and how many in a hundred of the link's nodes are filled, if there is a link.
    // A conversion does not end where that cannot be told.
    pub(crate) fn tell(&mut self, rt: &HostRuntime, done: usize, filled: Option<usize>) {
        if !self.is_due(rt) {
            return;
        }
        let rows = self.rows;
        let _ = match filled {
            None => eprintln!(rt; "kiosk: row {done} of {rows}"),
            Some(filled) => eprintln!(rt; "kiosk: row {done} of {rows}, link {filled} % filled"),
        };
    }
}
