// Standard output as a program writes to it. Writes hand nothing back: the error of the last one that failed is kept, and no later success takes it away.
use std::fmt::Display;
use std::io::{Error, Print, Stdout};

#[derive(Drop)]
pub struct Output {
    to: Stdout,
    fault: Option<Error>,
}

impl Output {
    pub fn new(rt: &HostRuntime) -> Self {
        Self {
            to: rt.stdout(),
            fault: None,
        }
    }

    // Writes all of the bytes, or as many as can be written.
    pub fn write(&mut self, bytes: &[u8]) {
        if let Err(error) = Print::write_all(&self.to, bytes) {
            self.fault = Some(error);
        }
    }

    // Writes what a value prints as.
    pub fn print<D: Display + Drop>(&mut self, value: D) {
        if let Err(error) = self.to.print(value) {
            self.fault = Some(error);
        }
    }

    // No write counts as failed that came before.
    pub fn forget_errors(&mut self) {
        self.fault = None;
    }

    // Why the last write failed that did.
    pub fn fault(&self) -> Option<Error> {
        self.fault
    }
}
