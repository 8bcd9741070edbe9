//! The colours of classes, from dark to light: they differ in grey too.

use crate::page::Page;
use std::fmt;
use std::num::{nearest_usize_to_f64, saturating_f64_to_u8, saturating_f64_to_usize};

/// A colour by its red, green and blue. `Display` writes it as SVG does.
#[derive(Clone, Copy)]
pub(crate) struct Colour {
    red: u8,
    green: u8,
    blue: u8,
}

/// The colour map viridis, at equal steps, the darkest first (S. van der Walt and N. Smith, 2015).
const VIRIDIS: [Colour; 5] = [
    Colour {
        red: 68,
        green: 1,
        blue: 84,
    },
    Colour {
        red: 59,
        green: 82,
        blue: 139,
    },
    Colour {
        red: 33,
        green: 145,
        blue: 140,
    },
    Colour {
        red: 94,
        green: 201,
        blue: 98,
    },
    Colour {
        red: 253,
        green: 231,
        blue: 37,
    },
];

/// The lightest grey, of 255, on which white letters are easier to read than black letters.
const LIGHTEST_UNDER_WHITE: f64 = 130.0;

/// The colour of the class at a place, among this number of classes: the highest class has the darkest
/// colour.
pub(crate) fn class_colour(place: usize, classes: usize) -> Colour {
    let classes = nearest_usize_to_f64(classes.max(1));
    let step = 4.0 * (nearest_usize_to_f64(place) + 0.5) / classes;
    let below = saturating_f64_to_usize(step).min(3);
    let part = step - nearest_usize_to_f64(below);
    VIRIDIS[below].mixed(VIRIDIS[below + 1], part)
}

/// The number this part of the way from one number to another.
fn between(one: u8, other: u8, part: f64) -> u8 {
    saturating_f64_to_u8(f64::from(one) * (1.0 - part) + f64::from(other) * part + 0.5)
}

impl Colour {
    /// The colour this part of the way to another.
    fn mixed(self, other: Colour, part: f64) -> Colour {
        Colour {
            red: between(self.red, other.red, part),
            green: between(self.green, other.green, part),
            blue: between(self.blue, other.blue, part),
        }
    }

    /// The grey of the colour, of 255 (ITU-R BT.601, section 2.5.1).
    fn grey(self) -> f64 {
        0.299 * f64::from(self.red) + 0.587 * f64::from(self.green) + 0.114 * f64::from(self.blue)
    }

    /// The colour of letters on an area of this colour.
    pub(crate) fn ink(self) -> &'static str {
        if self.grey() <= LIGHTEST_UNDER_WHITE {
            "#fff"
        } else {
            "#000"
        }
    }
}

/// The filling of an area.
#[derive(Clone, Copy)]
pub(crate) enum Fill {
    Plain(Colour),
    /// A filling by its name: a pattern, or a colour.
    Named(&'static str),
}

impl Page {
    /// Appends a filling, as SVG writes it.
    pub(crate) fn put_fill(self, fill: Fill) -> Page {
        match fill {
            Fill::Plain(colour) => self.put_shown(colour),
            Fill::Named(name) => self.put(name),
        }
    }
}

impl fmt::Display for Colour {
    fn fmt<W: fmt::Write>(&self, f: &mut fmt::Formatter<W>) -> fmt::Result {
        let digits = u32::from_be_bytes([0, self.red, self.green, self.blue]);
        write!(f, "#{digits:06x}")
    }
}
