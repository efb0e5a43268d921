//! Laws of charts, as contracts of functions that do nothing.
ghost use Rattle.std.specs.Prelude.{List};
ghost use Rattle.sap_chart.specs.ChartLaws.{DrawnRunsAreLegal, EachLineWithAFigureHasARow, EqualChartsTellTheSame, LegalRunsAreDrawn, LinesWithoutRowsAreBare, RunsAreDrawnByOneChart, ThreadsHaveOneLifeline, ToldLinesAreReadBack};
ghost use Rattle.sap_chart.specs.ChartText.{chart_text};
ghost use Rattle.sap_chart.specs.Rows.{Row};
ghost use Rattle.sap_chart.specs.WellFormed.{IsDocument};

use sap_lines::{limit_excludes, lines_have_one_answer, runs_match_exactly};
use sap_tell::{escaped_stands_for_one, legal_runs_are_told, one_told_text};

/// A law: what has a chart is a legal run of the process within the limit, and each such run has one.
pub fn drawn_runs_are_legal()
    ensures legal { DrawnRunsAreLegal }
    ensures drawn { LegalRunsAreDrawn }
{
    legal_runs_are_told();
}

/// A law: lines of a process that is ready have one chart, and a line without a row does nothing inside, shows no fact and adds no
/// entry; each other line has a row. Each thread that acts in a row has one lifeline, and no other has one. And the told lines are
/// read back from the titles of the rows, whatever bytes they have, so that equal charts tell the same lines.
pub fn one_chart()
    ensures chart { RunsAreDrawnByOneChart }
    ensures rows { LinesWithoutRowsAreBare }
    ensures drawn { EachLineWithAFigureHasARow }
    ensures lifelines { ThreadsHaveOneLifeline }
    ensures titles { ToldLinesAreReadBack }
    ensures told { EqualChartsTellTheSame }
{
    lines_have_one_answer();
    runs_match_exactly();
    limit_excludes();
    legal_runs_are_told();
    one_told_text();
    escaped_stands_for_one();
}

/// A law: a chart is well formed, whatever bytes stand in its rows: it is one element and a line feed, in which elements are closed by
/// their names, attributes of one element have different names, and all that isn't one of the picture's own marks is a number or what
/// is written for bytes.
pub fn charts_are_well_formed()
    ensures { (rows : List Row) → IsDocument (chart_text rows) }
{}
