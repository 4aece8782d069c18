//! What is proved of the views. These functions do nothing: each one's contract is its law.
ghost use Rattle.mql_forms.specs.declared.form.Form.TheVariants as form;
ghost use Rattle.mql_views.specs.Values as values;
ghost use Rattle.mql_views.specs.Statements as statements;
ghost use Rattle.mql_views.specs.Declarations as declarations;
ghost use Rattle.mql_views.specs.Items as items;
ghost use Rattle.mql_views.specs.Laws.{IsSeen, FunctionsFirst};

/// The named parts of values are there on all parts that their forms have.
pub fn values_are_seen()
    ensures postfixs { IsSeen form.Postfix values.pair }
    ensures unarys { IsSeen form.Unary values.pair }
    ensures products { IsSeen form.Product values.between }
    ensures sums { IsSeen form.Sum values.between }
    ensures shifts { IsSeen form.Shift values.between }
    ensures relations { IsSeen form.Relation values.between }
    ensures equalitys { IsSeen form.Equality values.between }
    ensures bit_ands { IsSeen form.BitAnd values.between }
    ensures bit_xors { IsSeen form.BitXor values.between }
    ensures bit_ors { IsSeen form.BitOr values.between }
    ensures ands { IsSeen form.And values.between }
    ensures ors { IsSeen form.Or values.between }
    ensures assignments { IsSeen form.Assignment values.between }
    ensures member_accesss { IsSeen form.MemberAccess values.between }
    ensures scopes { IsSeen form.Scope values.between }
    ensures conditionals { IsSeen form.Conditional values.conditional }
    ensures indexs { IsSeen form.Index values.index }
    ensures conversions { IsSeen form.Conversion values.conversion }
    ensures brackets { IsSeen form.Bracket values.bracket }
    ensures calls { IsSeen form.Call values.call }
    ensures generic_types { IsSeen form.GenericType values.generic }
    ensures generic_functions { IsSeen form.GenericFunction values.generic }
    ensures news { IsSeen form.New values.new_object }
    ensures dynamic_casts { IsSeen form.DynamicCast values.dynamic_cast }
    ensures bracess { IsSeen form.Braces values.in_braces }
{}

/// The named parts of statements are there on all parts that their forms have. An empty statement, `break`
/// and `continue` have none.
pub fn statements_are_seen()
    ensures blocks { IsSeen form.Block values.in_braces }
    ensures simples { IsSeen form.Simple statements.simple }
    ensures choices { IsSeen form.If statements.if_of }
    ensures whiles { IsSeen form.While statements.while_of }
    ensures dos { IsSeen form.Do statements.do_of }
    ensures fors { IsSeen form.For statements.for_of }
    ensures switches { IsSeen form.Switch statements.switch_of }
    ensures returned { IsSeen form.Return statements.return_of }
    ensures deletes { IsSeen form.Delete statements.delete_of }
{}

/// The named parts of items and members are there on all parts that their forms have.
pub fn declarations_are_seen()
    ensures items { IsSeen form.Item items.item }
    ensures templates { IsSeen form.Template items.template }
    ensures members { IsSeen form.Member items.member }
    ensures classes { IsSeen form.Class declarations.class_of }
    ensures enumerations { IsSeen form.Enumeration declarations.enumeration }
{}

/// What fits both a variable and a function is a function.
pub fn functions_come_first()
    ensures { FunctionsFirst }
{}
