//! The pause of a printer.
ghost use Rattle.std.specs.Prelude.{◌≡◌, ◌≤◌, true, false, set};
ghost use Rattle.print_room.specs.Jobs.{pausing};
ghost use Rattle.print_room.specs.DeviceJobs.{AllKeep};

use crate::room::PrintRoom;
use base_types::{Moment, PrinterId};
use job_objects::Printer;

/// The pause of a printer, at a moment that isn't before the last one. The call takes no memory.
impl PrintRoom {
    /// Pauses a printer (RFC 8011, section 4.2.7): none of its jobs is planned. A paused printer stays
    /// paused. If there is no such printer, only the moment changes.
    pub fn pause(&mut self, printer: PrinterId, now: Moment)
        requires { self.old.last ≤ now }
        ensures state { self.new ≡ pausing now printer true self.old }
        ensures keep { AllKeep self.old self.new }
    {
        self.advance(now);
        self.set_paused(printer, true);
    }

    /// Ends the pause of a printer (RFC 8011, section 4.2.8). A printer that isn't paused stays so. If there
    /// is no such printer, only the moment changes.
    pub fn resume(&mut self, printer: PrinterId, now: Moment)
        requires { self.old.last ≤ now }
        ensures state { self.new ≡ pausing now printer false self.old }
        ensures keep { AllKeep self.old self.new }
    {
        self.advance(now);
        self.set_paused(printer, false);
    }

    /// Sets whether a printer is paused.
    fn set_paused(&mut self, printer: PrinterId, paused: bool)
        ensures { self.new ≡ record self.old { paused = set self.old.paused printer paused } }
    {
        let place = printer.place();
        if place < self.printers.len() {
            self.good_for = None;
            self.printers[place] = printer_paused(paused);
        }
    }
}

/// A printer that is paused or not.
fn printer_paused(paused: bool) -> Printer
    ensures { result ≡ paused }
{
    let mut printer = Printer::new();
    if paused {
        printer.pause();
    }
    printer
}
