// The sizes that calls take, and their limits.
use std::fmt;

#[derive(Clone, Copy)]
pub struct Sizes {
    pub room: usize,
    pub earlier: usize,
    pub order: usize,
    // Or a tray's count.
    pub columns: usize,
}

#[derive(Clone, Copy, Debug, PartialEq, Eq)]
pub enum Size {
    Room,
    Order,
    EarlierOrder,
    Columns,
    Count,
}

impl fmt::Display for Size {
    fn fmt<W: fmt::Write>(&self, f: &mut fmt::Formatter<W>) -> fmt::Result {
        f.write_str(match self {
            Size::Room => "room",
            Size::Order => "order",
            Size::EarlierOrder => "earlier order",
            Size::Columns => "columns",
            Size::Count => "count",
        })
    }
}

// A size, the most that is accepted of it, and what stands beside it.
#[derive(Clone, Copy)]
pub struct Limit {
    pub size: Size,
    pub most: usize,
    pub beside: Sizes,
}

impl Limit {
    pub fn accepted(self) -> Sizes {
        self.at(self.most)
    }

    pub fn refused(self) -> Sizes {
        self.at(self.most.wrapping_add(1))
    }

    fn at(self, number: usize) -> Sizes {
        let mut sizes = self.beside;
        match self.size {
            Size::Room => sizes.room = number,
            Size::Order => sizes.order = number,
            Size::EarlierOrder => sizes.earlier = number,
            Size::Columns | Size::Count => sizes.columns = number,
        }
        sizes
    }
}

const EMPTY: Sizes = Sizes {
    room: 1024,
    earlier: 0,
    order: 0,
    columns: 1,
};

const FULL: Sizes = Sizes {
    room: 1024,
    earlier: 0,
    order: 1024,
    columns: 1,
};

const ORDER_1: Sizes = Sizes {
    room: 1,
    earlier: 0,
    order: 1,
    columns: 1,
};

const ORDER_64: Sizes = Sizes {
    room: 1024,
    earlier: 0,
    order: 64,
    columns: 1,
};

pub const ROOM: Limit = Limit {
    size: Size::Room,
    most: 1024,
    beside: EMPTY,
};

pub const ORDER: Limit = Limit {
    size: Size::Order,
    most: 1024,
    beside: EMPTY,
};

pub const EARLIER_ORDER: Limit = Limit {
    size: Size::EarlierOrder,
    most: 1024,
    beside: FULL,
};

pub const COLUMNS: Limit = Limit {
    size: Size::Columns,
    most: 1024,
    beside: ORDER_1,
};

pub const TRAY_ORDER: Limit = Limit {
    size: Size::Order,
    most: 64,
    beside: EMPTY,
};

pub const TRAY_COUNT: Limit = Limit {
    size: Size::Count,
    most: 1024,
    beside: ORDER_1,
};

pub const TEACHING_ROOM: Limit = Limit {
    size: Size::Room,
    most: 1024,
    beside: ORDER_64,
};

pub const TEACHING_ORDER: Limit = Limit {
    size: Size::Order,
    most: 64,
    beside: EMPTY,
};
