// A sheet, and the plan by which its switches are set.
use words::Plan;
use words::sheet::Sheet;

// Two words, so it is handed on by value. What is asked of it stands in the files of points, rules, switches and wishes.
#[derive(Clone, Copy)]
pub struct Planned<'a> {
    pub sheet: &'a Sheet<'a>,
    pub plan: Plan,
}
