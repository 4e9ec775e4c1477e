//! Orders: JSON objects. The member `call` names the call; `prepare` says that the order ends before the call; the
//! other members are the inputs of the call, by their names.

use crate::bytes::decode;
use crate::halt::Halt;
use serde_json::Value;
use std::alloc::Global;

/// An order.
#[derive(Clone, Copy)]
pub struct Order<'a> {
    members: &'a Value,
}

impl<'a> Order<'a> {
    /// The order of an object.
    pub fn new(members: &'a Value) -> Order<'a> {
        Order { members }
    }

    /// The name of the call.
    pub fn name(self) -> &'a str {
        self.text("call").unwrap_or("")
    }

    /// The name of the call to make; empty if the order ends before it.
    pub fn call(self) -> &'a str {
        if self.is("prepare") { "" } else { self.name() }
    }

    /// The style in which a value is shown; empty for the plain one.
    pub fn style(self) -> &'a str {
        self.text("style").unwrap_or("")
    }

    /// Whether the order has this member.
    pub fn has(self, name: &str) -> bool {
        self.members.get(name).is_some()
    }

    /// The text of a member, if it is one.
    pub fn text(self, name: &str) -> Option<&'a str> {
        self.members.get(name).and_then(Value::as_str)
    }

    /// The object of a member, if it is one, as an order of its own.
    pub fn object(self, name: &str) -> Option<Order<'a>> {
        match self.members.get(name) {
            Some(members) if members.is_object() => Some(Order { members }),
            _ => None,
        }
    }

    /// Whether a member is true.
    pub fn is(self, name: &str) -> bool {
        self.members
            .get(name)
            .and_then(Value::as_bool)
            .unwrap_or(false)
    }

    /// The number of a member, if it is one.
    pub fn number(self, name: &str) -> Option<u64> {
        self.members.get(name).and_then(Value::as_u64)
    }

    /// The text of a member, which has to be one.
    pub fn needed(self, name: &str) -> Result<&'a str, Halt> {
        self.text(name).ok_or(Halt::Unprepared)
    }

    /// The bytes of a member; no bytes if it is missing.
    pub fn bytes(self, alloc: Global, name: &str) -> Result<Vec<u8>, Halt> {
        decode(alloc, self.text(name).unwrap_or(""))
    }

    /// The bytes of a member, if it is a text.
    pub fn some_bytes(self, alloc: Global, name: &str) -> Result<Option<Vec<u8>>, Halt> {
        match self.text(name) {
            Some(text) => Ok(Some(decode(alloc, text)?)),
            None => Ok(None),
        }
    }

    /// An owned text of a member, if it is one.
    pub fn owned(self, alloc: Global, name: &str) -> Result<Option<String>, Halt> {
        match self.text(name) {
            Some(text) => Ok(Some(String::from_str(alloc, text)?)),
            None => Ok(None),
        }
    }
}

/// The halt for an unknown call; nothing if the order ends before the call.
pub fn unknown(call: &str) -> Result<(), Halt> {
    if call.is_empty() {
        Ok(())
    } else {
        Err(Halt::Unknown)
    }
}
