//! Interfaces, and the lists of their classes and filters.

use crate::class::Class;
use crate::filter::Filter;
use conf_lines::Text;
use play_base::NoMemory;
use std::alloc::Global;
use std::marker::Model;
use traffic_meter::MeterRule;

/// How an interface shares its link.
#[derive(Clone, Copy, PartialEq, Eq)]
pub enum Kind {
    /// The hierarchical fair service curve, after Stoica, Zhang and Ng, 1997.
    Hfsc,
    /// Class-based queueing, after Floyd and Jacobson, 1995.
    Cbq,
}

/// The classes of an interface, in the order of the text. Contracts see them as a list.
#[derive(Drop)]
pub struct ClassList {
    classes: Vec<Class>,
}

impl Model for ClassList {
    ghost use Rattle.std.specs.Prelude.{List};
    ghost use Rattle.conf_tree.specs.declared.class.Class.{Class};

    ghost Value = { List Class };

    ghost view = { λ l. l.classes.items };
}

impl ClassList {
    ghost use Rattle.std.specs.Prelude.{◌≡◌};

    /// The classes of a vector. Does not allocate.
    pub fn of(classes: Vec<Class>) -> ClassList
        ensures { result ≡ classes.items }
    {
        ClassList { classes }
    }

    /// The classes, in order. Does not allocate.
    pub fn as_slice(&self) -> &[Class]
        ensures { result.now ≡ self.now }
    {
        self.classes.as_slice()
    }
}

/// The filters of an interface, in the order of the text. Contracts see them as a list.
#[derive(Drop)]
pub struct FilterList {
    filters: Vec<Filter>,
}

impl Model for FilterList {
    ghost use Rattle.std.specs.Prelude.{List};
    ghost use Rattle.conf_tree.specs.declared.filter.Filter.{Filter};

    ghost Value = { List Filter };

    ghost view = { λ l. l.filters.items };
}

impl FilterList {
    ghost use Rattle.std.specs.Prelude.{◌≡◌};

    /// The filters of a vector. Does not allocate.
    pub fn of(filters: Vec<Filter>) -> FilterList
        ensures { result ≡ filters.items }
    {
        FilterList { filters }
    }

    /// The filters, in order. Does not allocate.
    pub fn as_slice(&self) -> &[Filter]
        ensures { result.now ≡ self.now }
    {
        self.filters.as_slice()
    }
}

/// An interface with its classes and its filters.
#[derive(Drop)]
pub struct Interface {
    /// Its name, which no other interface of the configuration has.
    pub name: Text,
    /// Its bandwidth in bits per second, 1,000 to 10^12.
    pub rate: u64,
    /// How it shares its link.
    pub kind: Kind,
    /// Whether the text has no class of it, so that its two classes are implied ones.
    pub implied: bool,
    /// Its classes, the root first, each parent before its children.
    pub classes: ClassList,
    /// Its filters.
    pub filters: FilterList,
}

impl Interface {
    ghost use Rattle.std.specs.Prelude.{◌≡◌, IfOk};
    ghost use Rattle.conf_tree.specs.Conditioners.{meters};

    /// The meters of its classes, by the number of the class; `None` where a class has no conditioner.
    ///
    /// Returns `NoMemory` where memory ran out. Takes time and memory linear in the classes.
    pub fn rules(&self, alloc: Global) -> Result<Vec<Option<MeterRule>>, NoMemory>
        ensures { IfOk result (λ rules. rules.items ≡ meters self.now.classes) }
    {
        let mut rules = Vec::new(alloc);
        for class in self.classes.as_slice() {
            rules.push(class.meter)?;
        }
        Ok(rules)
    }
}
