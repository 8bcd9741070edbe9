//! Lists of jobs, and the sentences about their first faults.
use settings_file::{Settings, read_settings};
use simulation::{JobList, ListedJob, read_list};
use std::alloc::{AllocError, Global};
use std::test::Fail;

/// A device and a printer.
const SETTINGS: &str =
    "version = 1\nuri_base = \"ipp://localhost:631\"\n[[device]]\nname = \"window\"\nrate_one = 10\nmedia = [\"iso_a4_210x297mm\", \"my_own\"]\nformats = [\"text/plain\"]\n[[printer]]\nname = \"lab\"\ndevices = [\"window\"]\nmedia_default = \"iso_a4_210x297mm\"\nformat_default = \"text/plain\"\n";

/// A list, and what becomes of it: its jobs, each with its moment, its impressions, its copies, its sides and its
/// medium; the columns that were ignored; or the sentence about its first fault.
const ROWS: [(&str, &str); 48] = [
    (
        "",
        "there is no list: the first line names the columns, and each further line is a job",
    ),
    (
        "\n\r\n",
        "there is no list: the first line names the columns, and each further line is a job",
    ),
    (
        "moment,impressions\n",
        "the list has no jobs: there is no line below the names of the columns",
    ),
    (
        "moment,impressions\n,\n , \n",
        "the list has no jobs: there is no line below the names of the columns",
    ),
    (
        "moment,impressions\n0,1\n0,10000\n",
        "0 1 1 one-sided iso_a4_210x297mm; 0 10000 1 one-sided iso_a4_210x297mm; ",
    ),
    (
        "octets,moment\r\n16777216,281474976710656\r\n",
        "281474976710656 4096 1 one-sided iso_a4_210x297mm; ",
    ),
    (
        "moment,impressions,copies,sides,finishings,priority,printer\n1,2,999,two-sided-short-edge,bind staple,100,lab\n2,2,,,,,\n",
        "1 2 999 two-sided-short-edge iso_a4_210x297mm; 2 2 1 one-sided iso_a4_210x297mm; ",
    ),
    // columns in any order and any case, and further ones
    (
        "Pages,Owner,MOMENT\n3,ann,5\n",
        "5 3 1 one-sided iso_a4_210x297mm; ignored Owner; ",
    ),
    (
        "User;Paper Size;Document Name;Time;Pages;Copies;Duplex;Size\nann;A3;\"a; b\";08:01:12;2;3;YES;24kb\n",
        "0 2 3 two-sided-long-edge iso_a3_297x420mm; ignored User; ignored Document Name; ignored Size; ",
    ),
    (
        "\u{feff}Time,User,Pages,Copies,Printer,Document Name,Duplex,Size\n08:00:00,ann,1,1,lab,a,DUPLEX,letter\n",
        "0 1 1 two-sided-long-edge na_letter_8.5x11in; ignored User; ignored Document Name; ",
    ),
    (
        "PaperCut Print Logger - http://www.papercut.com/\nTime,Pages,Duplex\n2026-11-28 08:00:00,2,NOT DUPLEX\n",
        "0 2 1 one-sided iso_a4_210x297mm; ",
    ),
    (
        "date\tbytes\n2026-11-28\t4097\n",
        "0 2 1 one-sided iso_a4_210x297mm; ",
    ),
    (
        "date,time,pages\n2026-11-28,08:00,1\n",
        "0 1 1 one-sided iso_a4_210x297mm; ignored date; ",
    ),
    (
        "a\u{1b}[31mb,time,pages\nx,1,1\n",
        "1 1 1 one-sided iso_a4_210x297mm; ignored a?[31mb; ",
    ),
    // clock times and dates, counted from the first, in any order
    (
        "time,pages\n08:01:12,1\n08:00,2\n08:00:00.5,3\n",
        "0 2 1 one-sided iso_a4_210x297mm; 500 3 1 one-sided iso_a4_210x297mm; 72000 1 1 one-sided iso_a4_210x297mm; ",
    ),
    (
        "time,pages\n2026-11-29 00:00:01,1\n2026-11-28T23:59:59,2\n",
        "0 2 1 one-sided iso_a4_210x297mm; 2000 1 1 one-sided iso_a4_210x297mm; ",
    ),
    (
        "time,pages\n2026-11-28T08:00:00+01:00,1\n2026-11-28T07:00:01Z,2\n",
        "0 1 1 one-sided iso_a4_210x297mm; 1000 2 1 one-sided iso_a4_210x297mm; ",
    ),
    (
        "time,pages\n5,1\n4,2\n",
        "4 2 1 one-sided iso_a4_210x297mm; 5 1 1 one-sided iso_a4_210x297mm; ",
    ),
    (
        "time,pages\n5,1\n5,2\n",
        "5 1 1 one-sided iso_a4_210x297mm; 5 2 1 one-sided iso_a4_210x297mm; ",
    ),
    (
        "time,pages\n08:00,1\n5,2\n",
        "line 3: the moments of a list are all numbers, all clock times, all dates with a zone or all dates without",
    ),
    // sides
    (
        "time,pages,sides\n1,1,true\n2,1,No\n3,1,DuplexTumble\n",
        "1 1 1 two-sided-long-edge iso_a4_210x297mm; 2 1 1 one-sided iso_a4_210x297mm; 3 1 1 two-sided-short-edge iso_a4_210x297mm; ",
    ),
    // media
    ("time,pages,media\n1,1,my_own\n", "1 1 1 one-sided my_own; "),
    (
        "time,pages,media\n1,1,om_card_54x86mm\n",
        "1 1 1 one-sided om_card_54x86mm; ",
    ),
    (
        "time,pages,Paper Size\n1,1,A4\n2,1,A9\n",
        "line 3, column \"Paper Size\": no device has this medium, and it is no name of a medium, as iso_a4_210x297mm or A4",
    ),
    (
        "time,pages,media\n1,1,iso_a4\n",
        "line 2, column \"media\": no device has this medium, and it is no name of a medium, as iso_a4_210x297mm or A4",
    ),
    // the printer of a log, where the settings have one alone
    (
        "time,pages,printer\n1,1,lobby\n",
        "1 1 1 one-sided iso_a4_210x297mm; another printer; ",
    ),
    // faults of the head
    (
        "pages,octets\n0,1\n",
        "line 1: no column has the moments: its name is moment, time, timestamp or date",
    ),
    (
        "moment,length\n0,1\n",
        "line 1: no column has the lengths: its name is impressions, pages, octets or bytes",
    ),
    (
        "octets\n1\n",
        "line 1: no column has the moments: its name is moment, time, timestamp or date",
    ),
    (
        "moment,octets,moment\n",
        "line 1, column \"moment\": another column says the same",
    ),
    (
        "Log\n\nmoment,octets,Time\n",
        "line 3, column \"Time\": another column says the same",
    ),
    // faults of a line
    (
        "moment,octets\n0,1\n0\n",
        "line 3: this line has another number of fields than the head",
    ),
    (
        "Log\nmoment,octets\n0,1,2\n",
        "line 3: this line has another number of fields than the head",
    ),
    (
        "moment,octets\n-1,1\n",
        "line 2, column \"moment\": a moment is a number of ms, 0 to 281,474,976,710,656, or as 08:01:12, 2026-11-28 08:01:12 or 2026-11-28T08:01:12+01:00",
    ),
    (
        "Moment,octets\n281474976710657,1\n",
        "line 2, column \"Moment\": a moment is a number of ms, 0 to 281,474,976,710,656, or as 08:01:12, 2026-11-28 08:01:12 or 2026-11-28T08:01:12+01:00",
    ),
    (
        "moment,octets\n2026-02-30 08:00,1\n",
        "line 2, column \"moment\": a moment is a number of ms, 0 to 281,474,976,710,656, or as 08:01:12, 2026-11-28 08:01:12 or 2026-11-28T08:01:12+01:00",
    ),
    (
        "moment,octets\n24:00:01,1\n",
        "line 2, column \"moment\": a moment is a number of ms, 0 to 281,474,976,710,656, or as 08:01:12, 2026-11-28 08:01:12 or 2026-11-28T08:01:12+01:00",
    ),
    (
        "moment,impressions\n0,0\n",
        "line 2, column \"impressions\": impressions are 1 to 10,000",
    ),
    (
        "moment,Pages\n0,two\n",
        "line 2, column \"Pages\": impressions are 1 to 10,000",
    ),
    (
        "moment,octets\n0,16777217\n",
        "line 2, column \"octets\": octets are 0 to 16,777,216",
    ),
    (
        "moment,octets,copies\n0,1,1000\n",
        "line 2, column \"copies\": copies are 1 to 999",
    ),
    (
        "moment,octets,sides\n0,1,both\n",
        "line 2, column \"sides\": sides is one-sided, two-sided-long-edge or two-sided-short-edge, or says yes or no to two sides",
    ),
    (
        "moment,octets,finishings\n0,1,staple staple\n",
        "line 2, column \"finishings\": finishings are staple, punch and bind, each once, with a space between two",
    ),
    (
        "moment,octets,priority\n0,1,101\n",
        "line 2, column \"priority\": priority is 1 to 100",
    ),
    ("moment,octets\n,1\n", "line 2: this job has no moment"),
    (
        "moment,octets\n5,\n4,1\n",
        "line 2: this job has neither impressions nor octets",
    ),
    (
        "moment,format,octets\n5,0123456789012345678901234567890123456789012345678901234567890123x,1\n",
        "line 2, column \"format\": format is a media type, of 64 bytes at most",
    ),
    (
        "moment,octets\n\n 1 , 1 \n",
        "1 1 1 one-sided iso_a4_210x297mm; ",
    ),
];

/// A job as the rows have it.
fn put_job(text: &mut String, job: &ListedJob) -> Result<(), AllocError> {
    let needs = &job.needs;
    let (moment, impressions, copies) = (job.moment, needs.impressions, needs.copies);
    let media = str::from_utf8(needs.media.as_bytes()).unwrap_or("?");
    let sides = needs.sides.keyword();
    write!(text, "{moment} {impressions} {copies} {sides} {media}; ")
}

/// The ignored columns of a list, and whether it names other printers, as the rows have them.
fn put_notes(text: &mut String, list: &JobList) -> Result<(), AllocError> {
    for name in &list.ignored {
        write!(text, "ignored {name}; ")?;
    }
    if list.names_others {
        write!(text, "another printer; ")?;
    }
    Ok(())
}

/// A list as the rows have it.
fn row_of(alloc: Global, list: &JobList) -> Result<String, AllocError> {
    let mut text = String::new(alloc);
    for job in &list.jobs {
        put_job(&mut text, job)?;
    }
    put_notes(&mut text, list)?;
    Ok(text)
}

/// What becomes of a list. The only error is out of memory.
fn result_of(alloc: Global, list: &str, settings: &Settings) -> Result<String, AllocError> {
    match read_list(alloc, list.as_bytes(), settings) {
        Ok(list) => row_of(alloc, &list),
        Err(error) => format!(in alloc; "{error}"),
    }
}

/// The place of the first row with another result; `None` where all rows have theirs.
fn first_other(alloc: Global, settings: &Settings) -> Result<Option<usize>, AllocError> {
    for (place, row) in ROWS.iter().enumerate() {
        let (list, wanted) = row;
        if result_of(alloc, list, settings)?.as_str() != *wanted {
            return Ok(Some(place));
        }
    }
    Ok(None)
}

#[test]
fn lists_of_jobs(rt: HostRuntime) -> Result<(), Fail> {
    let settings = read_settings(rt.alloc(), SETTINGS).map_err(|_| AllocError)?;
    let other = first_other(rt.alloc(), &settings)?;
    assert_eq!(rt; other, None);
    Ok(())
}
