// The workers of the nodes. They call each other: what falls is the calls left and, within a call, the levels left.
// A let and a pass bind a name of their call, and put its value back.
ghost use Rattle.std.specs.Prelude.{◌≡◌};

use super::kinds::Kind;
use super::loops::{Results, is_answer};
use super::memory::Memory;
use super::rows::{FILE_BYTES, node_count};
use super::uses::MOST_LEVELS;
use super::{Stop, VALUE_WORDS, Value, Values, Worked};

// The calls that stand below main.
const MOST_CALLS: usize = 31;

// Where the work stands: at a node, with so many levels and calls left.
#[derive(Clone, Copy)]
struct Place {
    node: usize,
    levels: usize,
    calls: usize,
}

impl Place {
    // Another node at the same levels.
    fn at(self, node: usize) -> Place
        ensures levels { result.levels ≡ self.levels }
        ensures calls { result.calls ≡ self.calls }
    {
        Place { node, ..self }
    }
}

impl Memory {
    // Works the part that begins at a node.
    #[cycle(work)]
    fn work_part(&mut self, at: Place) -> Worked {
        if at.levels == 0 {
            return Err(Stop::Broken);
        }
        match self.kind(at.node) {
            Kind::Number => return Ok(Value::number(self.operand(at.node))),
            Kind::Name => return Ok(self.name(at.calls, self.low(at.node))),
            _ => {}
        }
        let below = Place {
            levels: at.levels - 1,
            ..at
        };
        let roots = self.root_count;
        let mut values = [Value::number(0); VALUE_WORDS];
        self.work_parts(below, &mut values)?;
        let value = self.work_node(below, &values);
        self.root_count = roots;
        value
    }

    // Works the first parts of a node, and keeps their values. While a part is worked, what the parts after it use are
    // roots; then its value is one.
    #[cycle(work)]
    fn work_parts(&mut self, at: Place, values: &mut Values) -> Result<(), Stop> {
        let mut part = self.part(at.node, 0);
        for i in 0..self.shape(at.node).first {
            let inside = at.at(part);
            let roots = self.root_count;
            part = self.end(part);
            self.push_uses(at.calls, at.node, part);
            let value = self.work_part(inside)?;
            values[i % VALUE_WORDS] = value;
            self.root_count = roots;
            self.push(value);
        }
        Ok(())
    }

    // Works a node whose first parts are worked.
    #[cycle(work)]
    fn work_node(&mut self, at: Place, values: &Values) -> Worked {
        match self.kind(at.node) {
            Kind::Let => self.work_let(at, values[0]),
            Kind::Call => self.work_call(at, values),
            Kind::If => self.work_if(at, values[0].bits),
            Kind::Map | Kind::Filter | Kind::Reduce => self.work_loop(at, values),
            _ => self.work_leaf(at.node, values),
        }
    }

    // Works a let, whose value is no root but by the uses of its name.
    #[cycle(work)]
    fn work_let(&mut self, at: Place, value: Value) -> Worked {
        self.pop(1);
        self.work_under(at, value)
    }

    // Works the body of a let or a loop with a value under its name, or under the second name of a reduce.
    #[cycle(work)]
    fn work_under(&mut self, at: Place, bound: Value) -> Worked {
        let name = self.bound_name(at.node);
        let old = self.bind(at.calls, name, bound);
        let value = self.work_part(at.at(self.body(at.node)));
        self.bind(at.calls, name, old);
        value
    }

    // Works an if: its step, then the branch that its guard takes.
    #[cycle(work)]
    fn work_if(&mut self, at: Place, guard: u64) -> Worked {
        self.step()?;
        if !is_answer(guard) {
            return Err(Stop::BadGuard);
        }
        self.work_part(at.at(self.branch(at.node, guard)))
    }

    // Works a map, a filter or a reduce: its step, then one pass for each element. A reduce starts from its
    // first value.
    #[cycle(work)]
    fn work_loop(&mut self, at: Place, values: &Values) -> Worked {
        let kind = self.kind(at.node);
        self.step()?;
        let start = Value {
            bits: values[0].bits,
            is_array: self.begin_loop(at.calls, at.node)?,
        };
        let array = values[if kind == Kind::Reduce { 1 } else { 0 }].bits;
        let mut results = Results::none(start);
        for i in 0..self.length(array) {
            let element = self.element(array, i);
            let given = self.work_pass(at, results.running, element)?;
            results.keep(kind, element, given)?;
            // (a map's result is a root until its loop ends)
            if kind == Kind::Map {
                self.push(given);
            }
        }
        self.end_loop(kind, array, &results)
    }

    // Works one pass: its step, then the body under the element's name. In a reduce the running value has the first of
    // two names, which an equal second hides.
    #[cycle(work)]
    fn work_pass(&mut self, at: Place, running: Value, element: Value) -> Worked {
        self.step()?;
        if self.kind(at.node) != Kind::Reduce {
            return self.work_under(at, element);
        }
        let name = self.low(at.node);
        let old = self.bind(at.calls, name, running);
        let value = self.work_under(at, element);
        self.bind(at.calls, name, old);
        value
    }

    // Works a call: its step, then the function's body under its parameters alone. Values that the function only reads
    // stay roots till the end of the call, and the others are handed to it.
    #[cycle(work)]
    fn work_call(&mut self, at: Place, values: &Values) -> Worked {
        self.step()?;
        if at.calls == 0 {
            return Err(Stop::CallTooDeep);
        }
        let calls = at.calls - 1;
        let function = self.callee(at.node);
        self.hand_over(function, self.shape(at.node).first);
        let body = Place {
            node: self.bind_parameters(function, calls, values),
            levels: MOST_LEVELS,
            calls,
        };
        self.work_part(body)
    }

    // Works main on the totals and the first of these readings, which take a cell; the new totals. Main is the first of
    // 32 nested calls.
    pub fn work_main(&mut self, readings: &[u64; VALUE_WORDS], count: usize) -> Worked {
        let totals = self.totals();
        self.begin_delivery(totals);
        self.take()?;
        let mut numbers = [Value::number(0); VALUE_WORDS];
        for (number, bits) in numbers.iter_mut().zip(readings) {
            *number = Value::number(*bits);
        }
        let row = self.make_array(&numbers, count, false)?;
        let mut values = [totals; VALUE_WORDS];
        values[1] = row;
        let main = Place {
            node: self.bind_parameters(0, MOST_CALLS, &values),
            levels: MOST_LEVELS,
            calls: MOST_CALLS,
        };
        self.work_part(main)
    }

    // Reads a script file.
    pub fn read_script(&mut self, file: &[u8; FILE_BYTES]) {
        let nodes = node_count(file);
        self.read_rows(file);
        self.note_uses(nodes);
        self.note_handed(nodes);
        self.find_depths(nodes);
    }

    // The totals.
    fn totals(&self) -> Value {
        Value {
            bits: self.totals,
            is_array: 0 < self.high(0),
        }
    }

    // How many cells the totals take.
    pub fn totals_cells(&mut self) -> u64 {
        self.root_count = 0;
        self.push(self.totals());
        self.reached()
    }
}
