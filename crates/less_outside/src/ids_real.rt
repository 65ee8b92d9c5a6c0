// Ids from the system's file of random bytes. They tell nothing.
ghost use Rattle.std.specs.Prelude.{◌≡◌, None, is_err};
ghost use Rattle.less_terms.specs.Causes.{HasCause};
ghost use Rattle.less_outside.specs.Told.{next_on};

use crate::{Ids, OutsideFault};
use std::io::Read;
use std::rt::Files;
use std::{fs, io};

const RANDOM_BYTES: &str = "/dev/urandom";

/// The file is opened at the first draw.
#[derive(Drop)]
pub struct IdsReal<R: Files + Drop> {
    rt: R,
    source: Option<R::File>,
    faults: u64,
}

impl<R: Files + Drop> IdsReal<R> {
    ghost use Rattle.less_outside.specs.IdsReal.{IsNewIdsReal};

    /// The random bytes of this runtime's system.
    pub fn new(rt: R) -> Self
        ensures { IsNewIdsReal result rt }
    {
        IdsReal {
            rt,
            source: None,
            faults: 0,
        }
    }
}

impl<R: Files + Drop> Ids for IdsReal<R> {
    ghost use Rattle.less_outside.specs.IdsReal.{faults_of};

    ghost told = { λ _. None };

    ghost count = { λ i. i.faults };

    fn draw(&mut self) -> Result<u128, OutsideFault>
        ensures counted { faults_of self.new ≡ next_on (is_err result) (faults_of self.old) }
        ensures cause { HasCause (faults_of self.old) (faults_of self.new) result }
    {
        match read_draw(&self.rt, &mut self.source) {
            Ok(draw) => Ok(draw),
            Err(_) => {
                self.faults = self.faults.saturating_add(1);
                Err(OutsideFault::Failed)
            }
        }
    }

    fn faults(&self) -> u64 {
        self.faults
    }
}

fn read_draw<R: Files>(rt: &R, source: &mut Option<R::File>) -> io::Result<u128> {
    let mut bytes = [0u8; 16];
    match source {
        Some(file) => file.read_exact(&mut bytes)?,
        None => {
            let mut file = fs::open(rt, RANDOM_BYTES)?;
            file.read_exact(&mut bytes)?;
            *source = Some(file);
        }
    }
    Ok(u128::from_le_bytes(bytes))
}
