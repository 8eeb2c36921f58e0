// How far a long run is, on standard error where that is a terminal.
ghost use Rattle.std.specs.Prelude.{◌≡◌, IfOk};

use faults::fault::Fault;
use running::output::Rows;
use std::io;
use std::time::{Duration, Instant};

// Nothing is told of a run that is over before so many milliseconds, and then nothing more often than this.
const PATIENCE: u64 = 2000;

const PAUSE: u64 = 250;

/// Rows that are passed on, while it is told how far the run is.
#[derive(Drop)]
pub struct Watched<'a, R> {
    rt: &'a HostRuntime,
    rows: R,
    // Whether it is told at all.
    shows: bool,
    began: Instant,
    // When it is told next, from the beginning on.
    next: Duration,
    told: bool,
    // How many rows there are so far, the first too.
    added: u64,
    steps: u64,
}

impl<'a, R: Rows + Drop> Watched<'a, R> {
    /// Rows of so many seconds. It is told only where it shows.
    pub fn new(rt: &'a HostRuntime, rows: R, shows: bool, steps: u64) -> io::Result<Watched<'a, R>>
        ensures { IfOk result (λ watched. watched.rows ≡ rows) }
    {
        Ok(Watched {
            rt,
            rows,
            shows,
            began: Instant::now(rt)?,
            next: Duration::from_millis(PATIENCE),
            told: false,
            added: 0,
            steps,
        })
    }

    /// Ends the line that tells how far the run is, and gives the rows.
    pub fn finish(self) -> io::Result<R>
        ensures { IfOk result (λ rows. rows ≡ self.entry.rows) }
    {
        if self.told {
            eprintln!(self.rt)?;
        }
        Ok(self.rows)
    }

    // Tells that so many seconds are done. Where that cannot be told, the run goes on.
    fn tell(&mut self, seconds: u64)
        ensures { self.new.rows ≡ self.old.rows }
    {
        if self.shows {
            let _ = self.tell_in_time(seconds);
        }
    }

    // The same, where it is time for it.
    fn tell_in_time(&mut self, seconds: u64) -> io::Result<()>
        ensures { self.new.rows ≡ self.old.rows }
    {
        let passed = self.began.elapsed(self.rt)?;
        if passed < self.next {
            return Ok(());
        }
        self.next = passed.saturating_add(Duration::from_millis(PAUSE));
        self.told = true;
        eprint!(self.rt; "\r{seconds} of {} seconds", self.steps)
    }
}

impl<R: Rows + Drop> Rows for Watched<'_, R> {
    ghost grows = { λ s us t. R.grows s.rows us t.rows };

    fn add(&mut self, cells: &[u32]) -> Result<(), Fault> {
        self.rows.add(cells)?;
        let seconds = self.added;
        self.added = seconds.saturating_add(1);
        self.tell(seconds);
        Ok(())
    }

    fn passed(&mut self, seconds: u64) -> Result<(), Fault> {
        self.rows.passed(seconds)?;
        self.tell(seconds);
        Ok(())
    }

    ghost nothing = { λ s. R.nothing s.rows };

    ghost behind = { λ s t z us ws p q. R.behind s.rows t.rows z.rows us ws p q };
}
