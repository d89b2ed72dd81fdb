/// What a stream is to give.
#[derive(Clone, Copy)]
pub struct Row<'a> {
    /// The name of its file, without `.drc`.
    pub stream: &'a str,
    pub status: &'a str,
    /// The MD5 sum of the raw pictures, as hexadecimal digits.
    pub md5: &'a str,
    /// What is said of it: lines, with `|` between them.
    pub text: &'a str,
}

/// The row that a line of five columns says, with tabs between them.
pub fn row_of(line: &str) -> Option<Row<'_>> {
    let mut columns = line.split('\t');
    let stream = columns.next()?;
    let status = columns.next()?;
    let _pictures = columns.next()?;
    let md5 = columns.next()?;
    let text = columns.next()?;
    Some(Row {
        stream,
        status,
        md5,
        text,
    })
}
