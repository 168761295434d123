// Lists the 'name' table of each file that its arguments name, or of standard input where there is none.
// Document 01, end of "Examples to check against". It only reads, loops and writes: the lines are the libraries'.
#![tactic(auto)]

use listing_io::{NoTable, Page};
use name::Accepted;
use name_layout::RecordAt;
use outcomes::Told;

fn main(rt: HostRuntime) {
    list_argument(&rt, 1);
    for i in 2..listing_io::arguments(&rt).end {
        list_argument(&rt, i);
    }
}

// The listing of the file that argument i names, or of standard input where there is no such argument.
fn list_argument(rt: &HostRuntime, i: usize) {
    let mut table = [0u8; 65536];
    match listing_io::read_table(rt, i, &mut table) {
        Ok(n) => list_table(rt, &table[..n]),
        Err(NoTable::TooLong) => listing_io::write_line(rt, lines::too_long()),
        Err(NoTable::Unread) => {}
    }
}

// A table's one line of refusal, or its lines.
fn list_table(rt: &HostRuntime, table: &[u8]) {
    match name::check(table) {
        Ok(()) => list_accepted(rt, &Accepted { bytes: table }),
        Err(why) => listing_io::write_line(rt, lines::refusal_line(Told::from(why))),
    }
}

// The lines of an accepted table.
fn list_accepted(rt: &HostRuntime, table: &Accepted<'_>) {
    let mut page = Page::new();
    page.put(rt, name_lines::head_line(table));
    for i in 0..usize::from(table.record_count()) {
        let record = RecordAt {
            table: table.bytes,
            i,
        };
        page.put(rt, name_lines::record_line(&record));
    }
    page.put(rt, name_lines::postscript_line(table));
    page.put(rt, name_lines::version_line(table));
    page.write(rt);
}
