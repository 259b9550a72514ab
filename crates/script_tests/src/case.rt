//! A case as a section of the input spells it: its name, its header lines, and the script. What is
//! asked for here is carried out in `ran`.

/// What a case asks for. Calls are named by number, from 1; 0 names none.
#[derive(Clone, Copy)]
pub struct Case<'a> {
    /// The words of the command line that come after `psm`.
    pub words: &'a str,
    /// How many bytes a read gives at most, and a write takes.
    pub reads: usize,
    pub writes: usize,
    /// Which read fails; which call of the output, writes and the flush counted together; and which
    /// call of the error stream.
    pub failing_read: u64,
    pub failing_write: u64,
    pub failing_error: u64,
    /// How many bytes the output takes in all.
    pub room: usize,
    /// Whether the case goes on with the database of the case before it.
    pub keeps_database: bool,
    /// Whether the script's last line has no line feed.
    pub is_open: bool,
    /// Whether it is run once, and not once more with `--plain`.
    pub is_run_once: bool,
    /// Whether `\x` and two digits of base 16 stand for a byte.
    pub has_escapes: bool,
    /// Up to how many bytes the script goes on with spaces.
    pub size: usize,
    /// The script as it is spelled, without its last line feed.
    pub script: &'a str,
}

/// How many bytes a stream takes in all where a case does not say so: more than any case writes.
pub const ROOM: usize = 1 << 20;

impl<'a> Case<'a> {
    // A case that has no header line.
    fn plain(script: &'a str) -> Case<'a> {
        Case {
            words: "run",
            reads: 7,
            writes: 1000,
            failing_read: 0,
            failing_write: 0,
            failing_error: 0,
            room: ROOM,
            keeps_database: false,
            is_open: false,
            is_run_once: false,
            has_escapes: false,
            size: 0,
            script,
        }
    }

    /// Whether the case runs a script by `run`, and does not choose a mode.
    pub fn has_both_modes(&self) -> bool {
        let is_run = self.words == "run" || self.words.starts_with("run ");
        is_run && !self.is_run_once && !self.words.contains("--plain")
    }

    // Takes a header that has a number. Whether there is such a header.
    fn takes_number(&mut self, key: &str, number: u64) -> bool {
        match key {
            "reads" => self.reads = number as usize,
            "writes" => self.writes = number as usize,
            "failing read" => self.failing_read = number,
            "failing write" => self.failing_write = number,
            "failing error" => self.failing_error = number,
            "room" => self.room = number as usize,
            "spaces" => self.size = number as usize,
            _ => return false,
        }
        true
    }

    // Takes a header. Whether there is such a header, with such a value.
    fn takes(&mut self, key: &str, value: &'a str) -> bool {
        match (key, value) {
            ("words", words) => self.words = words,
            ("database", "kept") => self.keeps_database = true,
            ("end", "no line feed") => self.is_open = true,
            ("modes", "one") => self.is_run_once = true,
            ("bytes", "escaped") => self.has_escapes = true,
            (_, number) => match number.parse::<u64>() {
                Ok(number) => return self.takes_number(key, number),
                Err(_) => return false,
            },
        }
        true
    }

    // Takes a header line. Whether it is one, or a comment.
    fn takes_line(&mut self, line: &'a str) -> bool {
        if line.starts_with('#') {
            return true;
        }
        match line.split_once(':') {
            Some((key, value)) => self.takes(key, value.trim()),
            None => false,
        }
    }
}

/// A section of the input: the name of its case, and the case, or the header line that is none.
pub fn read_section<'a>(section: &'a str) -> (&'a str, Result<Case<'a>, &'a str>) {
    let (head, script) = section.split_once("\n---\n").unwrap_or((section, ""));
    let (name, lines) = head.split_once('\n').unwrap_or((head, ""));
    (name, read_case(lines, script))
}

// The case of these header lines and this script, or the line that is no header line.
fn read_case<'a>(lines: &'a str, script: &'a str) -> Result<Case<'a>, &'a str> {
    let mut case = Case::plain(script);
    for line in lines.lines() {
        if !case.takes_line(line) {
            return Err(line);
        }
    }
    Ok(case)
}
