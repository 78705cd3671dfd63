// A call's arguments, from the words of its line.
ghost use Rattle.std.specs.Prelude.{◌<◌};
ghost use Rattle.std.specs.Iterator.{IsFinite};

use crate::faults::{BadArgument, Fault};
use crate::list::List;
use crate::table::{Argument, Place};
use crate::text;

// The arguments that are numbers, each at its place among the arguments, which count from 0.
#[derive(Clone, Copy, Debug)]
pub struct Numbers([u16; 8]);

#[derive(Drop)]
pub struct Arguments {
    pub numbers: Numbers,
    pub a: List,
    pub b: List,
    pub c: List,
}

impl Numbers {
    // A number of one byte.
    pub fn small(self, argument: usize) -> u8
        requires { argument < 8 }
    {
        (self.0[argument] & 0xff) as u8
    }

    // A number of two bytes.
    pub fn large(self, argument: usize) -> u16
        requires { argument < 8 }
    {
        self.0[argument]
    }
}

impl Arguments {
    pub fn new() -> Arguments {
        Arguments {
            numbers: Numbers([0; 8]),
            a: List::new(),
            b: List::new(),
            c: List::new(),
        }
    }

    pub fn list(&self, place: Place) -> &List {
        match place {
            Place::A => &self.a,
            Place::B => &self.b,
            Place::C => &self.c,
        }
    }

    // Reads the arguments that a call takes, one from each word.
    pub fn read<'a, W: Iterator<Item = &'a [u8]>>(
        &mut self,
        takes: &[Argument],
        mut words: W,
    ) -> Result<(), Fault>
        requires can { W.can_next words }
        requires ends { IsFinite (W.remaining words) }
    {
        for (k, argument) in takes.iter().enumerate() {
            let Some(word) = words.next() else {
                return Err(Fault::Argument(k + 1, BadArgument::Missing));
            };
            self.read_one(k, *argument, word)
                .map_err(|why| Fault::Argument(k + 1, why))?;
        }
        match words.next() {
            Some(_) => Err(Fault::TooManyArguments),
            None => Ok(()),
        }
    }

    fn read_one(&mut self, k: usize, argument: Argument, word: &[u8]) -> Result<(), BadArgument> {
        match argument {
            Argument::U8 => self.set_number(k, number(word, 255)?),
            Argument::U16 => self.set_number(k, number(word, 65535)?),
            Argument::Read(place, element) | Argument::Written(place, element) => {
                self.list_mut(place).read(word, element)?;
            }
        }
        Ok(())
    }

    fn list_mut(&mut self, place: Place) -> &mut List {
        match place {
            Place::A => &mut self.a,
            Place::B => &mut self.b,
            Place::C => &mut self.c,
        }
    }

    // A call takes eight arguments at most, so that there is a place for each.
    fn set_number(&mut self, k: usize, number: u16) {
        if let Some(place) = self.numbers.0.get_mut(k) {
            *place = number;
        }
    }
}

fn number(word: &[u8], most: u16) -> Result<u16, BadArgument> {
    let value = text::decimal(word).ok_or(BadArgument::NotANumber)?;
    match u16::try_from(value) {
        Ok(value) if value <= most => Ok(value),
        _ => Err(BadArgument::NumberTooLarge),
    }
}
