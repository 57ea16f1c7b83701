//! Laws of the definitions that contracts cite. The functions do nothing.
ghost use Rattle.std.specs.Prelude.{◌≡◌, ℕ, List};
ghost use Rattle.station_book.specs.Stations.{SurveyedStation};
ghost use Rattle.station_book.specs.declared.result_limits.ResultLimits.{ResultLimits};
ghost use Rattle.table_report.specs.Stating.{IsReportOfTable, ReportAsked, ReportValue};

/// A station and the bytes of a table have one report: so each byte of it follows from these, and so
/// does whether the directions are apart beyond the limit.
pub fn one_report()
    ensures { (asked : ReportAsked) (limits : ResultLimits) (its : SurveyedStation)
        (bytes : List ℕ) (a b : ReportValue) → IsReportOfTable asked limits its bytes a
        → IsReportOfTable asked limits its bytes b → a ≡ b }
{}
