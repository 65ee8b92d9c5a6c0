// What a script is told of the request itself.
ghost use Rattle.std.specs.Prelude.{◌≡◌, ◌≤◌, codes, IfOk, OnOk, pos};
ghost use Rattle.std.specs.List.{find};
ghost use Rattle.order_map.specs.declared.key.Key.TheVariants.{Text};
ghost use Rattle.php_values.specs.Data.{data_of, array_of, bytes, int};
ghost use Rattle.reply_text.specs.Headers.{is_named};
ghost use Rattle.parameters.specs.Nested.{put_in, no_array};
ghost use Rattle.script_input.specs.Inputs as spec;
ghost use Rattle.script_input.specs.Made as made;

use crate::form::first_named;
use crate::given::query_of;
use less_outside::MAX_MOMENT;
use order_map::{ByteText, Key, OrderMap};
use php_values::Value;
use reply_text::HeaderLine;
use request_map::WebRequest;
use std::alloc::{AllocError, Global};

#[tactic(auto, using(parameters::proofs::Writes::was_put))]
fn add(
    alloc: Global,
    map: &mut OrderMap<Value>,
    name: &[u8],
    value: Value,
) -> Result<(), AllocError>
    ensures { OnOk result (array_of map.new ≡ put_in (Text name.now) (data_of value) (array_of map.old)) }
{
    let name = ByteText::from_slice(alloc, name)?;
    map.set(Key::Text(name), value)?;
    Ok(())
}

fn add_text(
    alloc: Global,
    map: &mut OrderMap<Value>,
    name: &[u8],
    text: &[u8],
) -> Result<(), AllocError>
    ensures { OnOk result (array_of map.new ≡ put_in (Text name.now) (bytes text.now) (array_of map.old)) }
{
    let text = ByteText::from_slice(alloc, text)?;
    add(alloc, map, name, Value::Bytes(text))?;
    Ok(())
}

fn add_number(
    alloc: Global,
    map: &mut OrderMap<Value>,
    name: &[u8],
    number: i64,
) -> Result<(), AllocError>
    ensures { OnOk result (array_of map.new ≡ put_in (Text name.now) (int number) (array_of map.old)) }
{
    add(alloc, map, name, Value::Int(number))?;
    Ok(())
}

fn protocol_of(version: u8) -> &'static [u8]
    ensures { result.now ≡ spec.protocol_of version }
{
    if version == 0 {
        b"HTTP/1.0"
    } else {
        b"HTTP/1.1"
    }
}

fn rooted(alloc: Global, script: &[u8]) -> Result<Vec<u8>, AllocError>
    ensures { IfOk result (λ path. path.items ≡ spec.rooted script.now) }
{
    let mut path = Vec::with_capacity(alloc, 1)?;
    path.push(b'/')?;
    path.extend_from_slice(script)?;
    Ok(path)
}

// The names of the script, behind what the head tells.
fn add_script(alloc: Global, map: &mut OrderMap<Value>, script: &[u8]) -> Result<(), AllocError>
    ensures { OnOk result (array_of map.new ≡ made.with_script script.now (array_of map.old)) }
{
    let path = rooted(alloc, script)?;
    add_text(alloc, map, b"SCRIPT_NAME", &path)?;
    add_text(alloc, map, b"PHP_SELF", &path)?;
    Ok(())
}

fn add_target(
    alloc: Global,
    map: &mut OrderMap<Value>,
    request: &WebRequest,
) -> Result<(), AllocError>
    ensures { OnOk result (array_of map.new ≡ made.with_target request.now (array_of map.old)) }
{
    add_text(alloc, map, b"REQUEST_METHOD", request.method())?;
    add_text(alloc, map, b"REQUEST_URI", request.target())?;
    add_text(alloc, map, b"QUERY_STRING", query_of(request.target()))?;
    Ok(())
}

fn add_host(
    alloc: Global,
    map: &mut OrderMap<Value>,
    headers: &[HeaderLine],
) -> Result<(), AllocError>
    ensures { OnOk result (array_of map.new ≡ made.with_host (find (is_named (codes "host")) headers.now) (array_of map.old)) }
{
    if let Some(header) = first_named(headers, b"host") {
        add_text(alloc, map, b"HTTP_HOST", header.value())?;
    }
    Ok(())
}

fn number_of(moment: u64) -> i64
    requires { moment ≤ MAX_MOMENT }
    ensures { result ≡ pos moment }
{
    moment as i64
}

fn add_moment(alloc: Global, map: &mut OrderMap<Value>, moment: u64) -> Result<(), AllocError>
    requires { moment ≤ MAX_MOMENT }
    ensures { OnOk result (array_of map.new ≡ put_in (Text (codes "REQUEST_TIME")) (int (pos moment)) (array_of map.old)) }
{
    add_number(alloc, map, b"REQUEST_TIME", number_of(moment))?;
    Ok(())
}

/// `$_SERVER`: the method, the target, the query, the script, the protocol, the host and the moment, in this order.
pub fn server_of(
    alloc: Global,
    request: &WebRequest,
    script: &[u8],
    moment: u64,
) -> Result<OrderMap<Value>, AllocError>
    requires { moment ≤ MAX_MOMENT }
    ensures { IfOk result (λ map. array_of map ≡ spec.server_of request.now script.now moment) }
{
    let mut map = OrderMap::new(alloc);
    add_target(alloc, &mut map, request)?;
    add_script(alloc, &mut map, script)?;
    add_text(
        alloc,
        &mut map,
        b"SERVER_PROTOCOL",
        protocol_of(request.version()),
    )?;
    add_host(alloc, &mut map, request.headers())?;
    add_moment(alloc, &mut map, moment)?;
    Ok(map)
}
