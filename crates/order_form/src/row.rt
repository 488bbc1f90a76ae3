// A row of the order form.
ghost use Rattle.std.specs.Prelude.{◌≡◌};
ghost use Rattle.order_form.specs.Rows.{value_of};

// A head by its serial, and the node number that it is to get.
#[repr(C)]
#[derive(Clone, Copy)]
pub struct Row {
    pub serial: u32,
    pub node: u32,
}

// What of a row may stand in one row only.
#[derive(Clone, Copy)]
pub enum Column {
    Serial,
    Number,
}

impl Row {
    // What the row has in the column.
    pub(crate) fn value(self, column: Column) -> u32
        ensures { result ≡ value_of column self }
    {
        match column {
            Column::Serial => self.serial,
            Column::Number => self.node,
        }
    }
}
