//! The faults of the libraries below as reports, so that `?` passes them on.

ghost use Rattle.std.specs.Prelude.{◌≡◌};
ghost use Rattle.gm_file.specs.BytesFaults.{fault_by_syntax};
ghost use Rattle.gomod_texts.specs.declared.reports.report.Report.TheVariants as report;
ghost use Rattle.gomod_texts.specs.FromFaults.{report_by_bytes, report_by_load, report_by_sums};

use crate::reports::report::Report;
use gm_file::BytesFault;
use gm_graph::LoadFault;
use gm_store_sums::SumFault;
use gm_syntax::SyntaxFault;
use std::alloc::AllocError;

impl<'a> From<AllocError> for Report<'a> {
    ghost from_gives = { λ _ told. told ≡ report.NoMemory };

    /// A failed allocation is `NoMemory`.
    fn from(_error: AllocError) -> Report<'a> {
        Report::NoMemory
    }
}

impl<'a> From<BytesFault> for Report<'a> {
    ghost from_gives = { λ fault told. told ≡ report_by_bytes fault };

    /// The report of a main file whose bytes can't be read.
    fn from(fault: BytesFault) -> Report<'a> {
        match fault {
            BytesFault::NoMemory => Report::NoMemory,
            BytesFault::Misread { line, kind } => Report::Main { line, kind },
        }
    }
}

impl<'a> From<SyntaxFault> for Report<'a> {
    ghost from_gives = { λ fault told. told ≡ report_by_bytes (fault_by_syntax fault) };

    /// The report of a main file whose bytes are not a document.
    fn from(fault: SyntaxFault) -> Report<'a> {
        Report::from(BytesFault::from(fault))
    }
}

impl<'a> From<SumFault> for Report<'a> {
    ghost from_gives = { λ fault told. told ≡ report_by_sums fault };

    /// The report of an invalid go.sum.
    fn from(fault: SumFault) -> Report<'a> {
        match fault {
            SumFault::NoMemory => Report::NoMemory,
            SumFault::TooMany => Report::LongSums,
            SumFault::BadSum { line } => Report::Sums(line),
        }
    }
}

impl<'a> From<LoadFault> for Report<'a> {
    ghost from_gives = { λ fault told. told ≡ report_by_load fault };

    /// The report when loading stops early.
    fn from(fault: LoadFault) -> Report<'a> {
        match fault {
            LoadFault::NoMemory => Report::NoMemory,
            LoadFault::TooMany => Report::TooMany,
            LoadFault::Device(name) => Report::Device(name),
        }
    }
}
