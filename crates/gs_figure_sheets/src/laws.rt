//! Laws about the definitions of sheets.
ghost use Rattle.std.specs.Prelude.{◌≡◌};
ghost use Rattle.std.specs.List.{AllByRecursion};
ghost use Rattle.gs_plan.specs.declared.plan.Plan.{Plan as PlanValue};
ghost use Rattle.gs_report.specs.declared.report.Report.{Report as ReportValue};
ghost use Rattle.gs_figure_sheets.specs.declared.wanted.Layout.TheVariants.{Person};
ghost use Rattle.gs_figure_sheets.specs.FigureSheets.{figure_sheets};
ghost use Rattle.gs_figure_sheets.specs.Shapes.{HasOwnHeaders, HaveOwnNames, IsFilled};
ghost use Rattle.gs_figure_sheets.specs.Wishes.{Wishes};

/// Each row of each sheet has a value for each column.
pub fn rows_have_a_value_for_each_column()
    ensures { (plan : PlanValue) (report : ReportValue) (w : Wishes)
        → AllByRecursion IsFilled (figure_sheets plan report w) }
{}

/// No two columns of a table for a person have the same header, if no two groups have the same name.
pub fn columns_of_a_table_have_headers_of_their_own()
    ensures { (plan : PlanValue) (report : ReportValue) (w : Wishes)
        → w.layout ≡ Person → HaveOwnNames w.groups → AllByRecursion HasOwnHeaders (figure_sheets plan report w) }
{}
