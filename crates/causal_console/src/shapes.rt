//! The shapes of lines, as messages show them.

/// The shape of the lines with one first word.
#[derive(Clone, Copy)]
pub(crate) struct Shape {
    word: &'static str,
    /// The line, with letters for its numbers.
    pub fields: &'static str,
    /// The ranges of those letters.
    pub ranges: &'static str,
}

impl Shape {
    /// Whether this is the shape of lines with this first word.
    pub(crate) fn has_word(&self, word: &[u8]) -> bool {
        self.word.as_bytes() == word
    }
}

/// The shapes of a trace's lines.
pub(crate) const TRACE_SHAPES: [Shape; 8] = [
    Shape {
        word: "trace",
        fields: r#"["trace",VERSION,N]"#,
        ranges: "in line 1 alone",
    },
    Shape {
        word: "send",
        fields: r#"["send",P,Q,SSN]"#,
        ranges: "with P and Q 0 to 255 and SSN 0 to 4294967295",
    },
    Shape {
        word: "deliver",
        fields: r#"["deliver",Q,POSITION,RSN,[[SOURCE,SSN,DEST,RSN],..]]"#,
        ranges: "with Q, SOURCE and DEST 0 to 255 and POSITION, SSN and RSN 0 to 4294967295",
    },
    Shape {
        word: "stable",
        fields: r#"["stable",[SOURCE,SSN,DEST,RSN]]"#,
        ranges: "with SOURCE and DEST 0 to 255 and SSN and RSN 0 to 4294967295",
    },
    Shape {
        word: "crash",
        fields: r#"["crash",P]"#,
        ranges: "with P 0 to 255",
    },
    Shape {
        word: "restart",
        fields: r#"["restart",P,[[SOURCE,SSN,DEST,RSN],..]]"#,
        ranges: "with P, SOURCE and DEST 0 to 255 and SSN and RSN 0 to 4294967295",
    },
    Shape {
        word: "forget",
        fields: r#"["forget",P,[[SOURCE,SSN,DEST,RSN],..]]"#,
        ranges: "in version 2 alone, with P, SOURCE and DEST 0 to 255 and SSN and RSN 0 to 4294967295",
    },
    Shape {
        word: "end",
        fields: r#"["end",ENTRIES]"#,
        ranges: "with ENTRIES 0 to 4294967295",
    },
];

/// The shapes of a recording's lines.
pub(crate) const RECORDING_SHAPES: [Shape; 8] = [
    Shape {
        word: "recording",
        fields: r#"["recording",P,1,N,RUN]"#,
        ranges: "with P 0 to 255, N 1 to 256 and RUN 0 to 18446744073709551615",
    },
    Shape {
        word: "send",
        fields: r#"["send",P,CLOCK,Q,SSN]"#,
        ranges: "with P and Q 0 to 255, CLOCK 0 to 18446744073709551615 and SSN 0 to 4294967295",
    },
    Shape {
        word: "deliver",
        fields: r#"["deliver",P,CLOCK,SOURCE,INCARNATION,SSN,RSN,[[SOURCE,SSN,DEST,RSN],..]]"#,
        ranges: "with P, SOURCE and DEST 0 to 255, CLOCK 0 to 18446744073709551615 and INCARNATION, SSN and RSN 0 to 4294967295",
    },
    Shape {
        word: "stable",
        fields: r#"["stable",P,CLOCK,[SOURCE,SSN,DEST,RSN]]"#,
        ranges: "with P, SOURCE and DEST 0 to 255, CLOCK 0 to 18446744073709551615 and SSN and RSN 0 to 4294967295",
    },
    Shape {
        word: "crash",
        fields: r#"["crash",P,CLOCK]"#,
        ranges: "with P 0 to 255 and CLOCK 0 to 18446744073709551615",
    },
    Shape {
        word: "restart",
        fields: r#"["restart",P,CLOCK,[[SOURCE,SSN,DEST,RSN],..]]"#,
        ranges: "with P, SOURCE and DEST 0 to 255, CLOCK 0 to 18446744073709551615 and SSN and RSN 0 to 4294967295",
    },
    Shape {
        word: "forget",
        fields: r#"["forget",P,CLOCK,[[SOURCE,SSN,DEST,RSN],..]]"#,
        ranges: "with P, SOURCE and DEST 0 to 255, CLOCK 0 to 18446744073709551615 and SSN and RSN 0 to 4294967295",
    },
    Shape {
        word: "heard",
        fields: r#"["heard",P,CLOCK,Q,Q_CLOCK]"#,
        ranges: "with P and Q 0 to 255 and CLOCK and Q_CLOCK 0 to 18446744073709551615",
    },
];
