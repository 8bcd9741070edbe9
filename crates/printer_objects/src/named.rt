//! The attributes of a printer that are asked for by their names.
ghost use Rattle.std.specs.Prelude.{◌≡◌, length, true};
ghost use Rattle.printer_objects.specs.Named.{covers, marked, named_of};
ghost use Rattle.printer_objects.specs.PrinterAttribute.{printer_table};

use crate::printer_attribute::PrinterAttribute;
use base_types::Text;

const COUNT: usize = PrinterAttribute::COUNT;

/// The places of all attributes in the table.
const ALL: [usize; COUNT] = [
    0, 1, 2, 3, 4, 5, 6, 7, 8, 9, 10, 11, 12, 13, 14, 15, 16, 17, 18, 19, 20, 21, 22, 23, 24, 25,
    26, 27, 28, 29, 30, 31, 32, 33,
];

/// Whether some value of requested-attributes is the name of the attribute, for each attribute of the table.
pub(crate) fn named(requested: &[Text]) -> [bool; COUNT]
    ensures { result ≡ named_of requested.now }
{
    let table = PrinterAttribute::all();
    let mut marks = [false; COUNT];
    for asked in requested {
        mark(&mut marks, &table, asked.as_bytes());
    }
    marks
}

/// Marks the attribute of the name `asked`, if there is one. Only names of its length are compared with it.
fn mark(marks: &mut [bool; COUNT], table: &[PrinterAttribute; COUNT], asked: &[u8])
    requires { table.now ≡ printer_table }
    ensures { marks.new ≡ marked asked.now marks.old printer_table }
{
    for place in places_of(asked.len()) {
        if asked == table[*place].name().as_bytes() {
            marks[*place] = true;
        }
    }
}

/// The places of the attributes whose names have so many bytes, and maybe of others.
fn places_of(length: usize) -> &'static [usize]
    ensures { covers length result.now ≡ true }
{
    match length {
        11 => &[29],
        12 => &[3],
        13 => &[4, 27, 30],
        14 => &[21],
        15 => &[19, 28, 31],
        16 => &[17, 22],
        17 => &[11],
        18 => &[10, 32],
        20 => &[7, 25, 33],
        21 => &[0, 5, 20],
        22 => &[1, 6, 18, 23, 26],
        23 => &[14],
        24 => &[24],
        25 => &[15, 16],
        27 => &[9, 12],
        28 => &[2],
        32 => &[8],
        36 => &[13],
        _ => &ALL,
    }
}
