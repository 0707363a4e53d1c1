//! Laws of reports: bytes come to at most one end, and what is printed is read.
ghost use Rattle.report_reader.specs.Reading.{BadNotTruncatedLaw, OneBadLineLaw, OneReportLaw, PrintedLaw, ReadNotBadLaw, ReadNotTruncatedLaw};

/// Bytes that are a report have no bad line.
pub fn read_is_not_bad()
    ensures { ReadNotBadLaw }
{}

/// Bytes that are a report are not truncated.
pub fn read_is_not_truncated()
    ensures { ReadNotTruncatedLaw }
{}

/// Bytes with a bad line are not truncated.
pub fn bad_is_not_truncated()
    ensures { BadNotTruncatedLaw }
{}

/// Bytes have at most one bad line.
pub fn one_bad_line()
    ensures { OneBadLineLaw }
{}

/// Bytes are those of one report.
pub fn one_report()
    ensures { OneReportLaw }
{}

/// What is printed of a report in the grammar is read as that report.
pub fn printed_is_read()
    ensures { PrintedLaw }
{}
