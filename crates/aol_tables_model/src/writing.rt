use crate::reading::verdict;
use aol_model::{Document, document_of, value_of};
use serde_json::Value;
use std::alloc::Global;
use std::test::Fail;

/// What is written of the document that the text spells.
fn written(alloc: Global, text: &str) -> Result<String, Fail> {
    let tree = Value::from_str(alloc, text)?;
    match document_of(alloc, &tree) {
        Ok(Document { model, job }) => {
            let tree = value_of(alloc, &model, &job)?;
            Ok(tree.to_string(alloc)?)
        }
        Err(_) => verdict(alloc, text),
    }
}

const FIRST_VERSION: &str = "{\"model\":{\"tasks\":[\
    {\"kind\":\"compound\",\"name\":\"M\",\"in\":[{\"name\":\"x\",\"shape\":\"{ 2 }\"}],\"out\":[{\"name\":\"y\",\"shape\":\"{2}\"}],\"parts\":[{\"name\":\"p\",\"task\":\"R\"}],\"links\":[{\"from\":\"x\",\"to\":\"p.a\"},{\"from\":\"p.b\",\"to\":\"y\"}],\"reshapes\":[]},\
    {\"kind\":\"repeated\",\"name\":\"R\",\"in\":[{\"name\":\"a\",\"shape\":\"{2}\"}],\"out\":[{\"name\":\"b\",\"shape\":\"{02}\"}],\"space\":\"{2}\",\"task\":\"T\",\"tilers\":[],\"links\":[\
    {\"from\":\"s\",\"to\":\"t\",\"distance\":\"{-0}\",\"modulo\":true,\"default\":null},\
    {\"from\":\"s\",\"to\":\"u\",\"distance\":\"{1}\",\"modulo\":false,\"default\":{\"outer\":\"a\",\"tiler\":\"( origin={0}, paving={{1}}, fitting={} )\"}}]},\
    {\"kind\":\"elementary\",\"name\":\"T\",\"in\":[{\"name\":\"i\",\"shape\":\"{}\",\"type\":\"int16\"},{\"name\":\"j\",\"shape\":\"{}\",\"type\":\"int64\"}],\"out\":[{\"name\":\"o\",\"shape\":\"{}\",\"type\":\"int32\",\"expr\":\"( i{} )+01\"}]}],\
    \"main\":\"M\"},\"input\":{\"x\":[1,-2]},\
    \"transform\":[{\"kind\":\"tile\",\"task\":\"R\",\"outer\":\"{2}\",\"block\":\"{1}\"},{\"kind\":\"skew\",\"task\":\"R\",\"outer\":\"{2}\",\"block\":\"{02}\"}],\
    \"allocate\":[{\"leaf\":\"p\",\"processors\":\"{2}\",\"space\":\"{2}\",\"pattern\":\"{}\",\"from\":\"(origin={0},paving={{1}},fitting={})\",\"to\":\"(origin={0},paving={{1}},fitting={})\"}]}";

const SECOND_VERSION: &str =
    "{\"allocate\":[{\"from\":\"(origin={0},paving={{1}},fitting={})\",\"leaf\":\"p\",\"pattern\":\"{}\",\"processors\":\"{2}\",\"space\":\"{2}\",\"to\":\"(origin={0},paving={{1}},fitting={})\"}],\
    \"input\":{\"x\":[1,-2]},\"model\":{\"main\":\"M\",\"tasks\":[\
    {\"in\":[{\"name\":\"x\",\"shape\":\"{2}\"}],\"kind\":\"compound\",\"links\":[{\"from\":\"x\",\"to\":\"p.a\"},{\"from\":\"p.b\",\"to\":\"y\"}],\"name\":\"M\",\"out\":[{\"name\":\"y\",\"shape\":\"{2}\"}],\"parts\":[{\"name\":\"p\",\"task\":\"R\"}],\"reshapes\":[]},\
    {\"in\":[{\"name\":\"a\",\"shape\":\"{2}\"}],\"kind\":\"repeated\",\"links\":[\
    {\"default\":null,\"distance\":\"{0}\",\"from\":\"s\",\"modulo\":true,\"to\":\"t\"},\
    {\"default\":[{\"dimension\":null,\"side\":null,\"value\":{\"outer\":\"a\",\"tiler\":\"(origin={0},paving={{1}},fitting={})\"}}],\"distance\":\"{1}\",\"from\":\"s\",\"modulo\":false,\"to\":\"u\"}],\
    \"name\":\"R\",\"out\":[{\"name\":\"b\",\"shape\":\"{2}\"}],\"space\":\"{2}\",\"task\":\"T\",\"tilers\":[]},\
    {\"in\":[{\"name\":\"i\",\"shape\":\"{}\",\"type\":\"int16\"},{\"name\":\"j\",\"shape\":\"{}\"}],\"kind\":\"elementary\",\"name\":\"T\",\"out\":[{\"expr\":\"i{}+1\",\"name\":\"o\",\"shape\":\"{}\",\"type\":\"int32\"}]}]},\
    \"transform\":[{\"block\":\"{1}\",\"kind\":\"tile\",\"outer\":\"{2}\",\"task\":\"R\"},{\"block\":\"{2}\",\"kind\":\"skew\",\"outer\":\"{2}\",\"task\":\"R\"}],\"version\":2}";

#[test]
fn documents_are_written_in_the_second_version(rt: HostRuntime) -> Result<(), Fail> {
    let alloc = rt.alloc();
    for text in [FIRST_VERSION, SECOND_VERSION] {
        let text = written(alloc, text)?;
        assert_eq!(rt; text.as_str(), SECOND_VERSION);
    }
    Ok(())
}
