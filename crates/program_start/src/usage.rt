// What a person reads where the words can't stand.

/// Says how the program is called on standard error, where the run's status is 1: its words can't stand.
pub fn tell_usage(rt: &impl Eprint, status: u8, usage: &str) {
    if status == 1 {
        let _ = eprint!(rt; "{usage}");
    }
}
