// What the program writes: each wrong try as it is met, then the counts.
use answer_lists::count::Count;
use std::io;

pub fn print_count(rt: &impl Print, label: &str, what: &str, count: Count) -> io::Result<()> {
    println!(rt;
        "{label}: {} {what}, {} wrong",
        count.cases, count.differing
    )
}

pub fn print_part(rt: &impl Print, place: u64, length: u64) -> io::Result<()> {
    println!(rt; "place {place}, length {length}: not cleared as is due")
}

pub fn print_command(rt: &impl Print, command: u64) -> io::Result<()> {
    println!(rt; "command {command}: not reverted as is due")
}
